// The table image: the loader and the writer.
ghost use Rattle.image.specs.Load.{Loaded};
ghost use Rattle.writer.specs.Write.{Written};

use image::LoadAnswer;
use layout::Shape;
use writer::WriteAnswer;

// Reads a table out of an image into two outputs, which may be longer.
pub fn ng_load(img: &[u8], nodes: &mut [f64], values: &mut [f64]) -> LoadAnswer
    ensures { Loaded img.now nodes.old values.old
        nodes.new values.new result }
{
    image::load(img, nodes, values)
}

// Writes a table as an image into an output, which may be longer.
pub fn ng_write(shape: Shape, nodes: &[f64], values: &[f64], img: &mut [u8]) -> WriteAnswer
    ensures { Written shape nodes.now values.now img.old img.new result }
{
    writer::write(shape, nodes, values, img)
}
