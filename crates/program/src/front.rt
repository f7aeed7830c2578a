// The image at the front of an input, loaded: a program's table, or its refusal.
ghost use Rattle.std.specs.Prelude.{◌≡◌, ◌≤◌, length};
ghost use Rattle.program.specs.Scaffolding.{Loads};

use crate::input;
use answer::Answer;
use checks::shapes;
use checks::shapes::Holding;
use layout::Shape;

// How many bytes of the input are the image, what the loader answers, and the shape and the sizes of the table at the fronts of the
// outputs.
#[derive(Clone, Copy)]
pub struct Front {
    pub size: usize,
    pub answer: Answer,
    pub shape: Shape,
    pub nodes: usize,
    pub values: usize,
}

// Loads the image at the front of an input into two outputs, of 256 nodes and of 4,096 values: room for any table.
pub fn load(input: &[u8], nodes: &mut [f64], values: &mut [f64]) -> Front
    ensures loads { length nodes.old ≡ 256
        → length values.old ≡ 4096
        → Loads input.now nodes.new values.new result }
    ensures axes_bound { (result.shape.axes ≤ 4) × (result.size ≤ length input.now) }
    ensures nodes_in_bounds { (result.nodes ≤ length nodes.new) × (result.values ≤ length values.new) }
{
    let size = input::image_size(input).min(input.len());
    let loaded = image::load(&input[..size], nodes, values);
    let answer = loaded.answer;
    let shape = loaded.shape;
    let held = shapes::sizes(shape).unwrap_or(Holding {
        nodes: 0,
        values: 0,
    });
    let n = held.nodes.min(nodes.len());
    let v = held.values.min(values.len());
    Front {
        size,
        answer,
        shape,
        nodes: n,
        values: v,
    }
}
