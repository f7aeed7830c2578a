// An image that was loaded, and the table that it says.
ghost use Rattle.program.specs.Whole.{TableOf};

use layout::Shape;

// The bytes of the image, its shape, its nodes and its values.
#[derive(Clone, Copy)]
pub struct Loaded<'a> {
    pub img: &'a [u8],
    pub shape: Shape,
    pub nodes: &'a [f64],
    pub values: &'a [f64],
    pub ghost table: { TableOf img.now shape nodes.now values.now },
}
