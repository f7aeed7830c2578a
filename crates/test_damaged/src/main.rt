// Loads each image of the list on standard input, writes what was loaded as an image and loads that, and tells in a line how it went.
// The list and the lines are those of vectors/images.py.
#![tactic(auto)]

mod heads;
mod line;
mod outputs;

ghost use Rattle.std.specs.Prelude.{◌≤◌, length};

use heads::Head;
use image::LoadAnswer;
use layout::Shape;
use test_runs::list;
use test_runs::list::Stop;
use writer::WriteAnswer;

// Loads an image into outputs that are marked first, and tells how that went.
fn load_entry(img: &[u8], nodes: &mut [f64], values: &mut [f64]) -> LoadAnswer {
    outputs::mark(nodes, outputs::NODES);
    outputs::mark(values, outputs::VALUES);
    let made = image::load(img, nodes, values);
    line::say_load(made, outputs::sum(nodes), outputs::sum(values));
    made
}

// Writes a table into an output that is marked first, and tells how that went.
fn write_again(shape: Shape, nodes: &[f64], values: &[f64], out: &mut [u8]) -> WriteAnswer
    ensures { result.length ≤ length out.new }
{
    outputs::mark_bytes(out);
    let made = writer::write(shape, nodes, values, out);
    line::say_write(made, outputs::sum_bytes(out));
    made
}

// Writes what was loaded at the fronts of two outputs as an image, and loads the image that comes of it into them.
fn write_back(
    head: Head,
    loaded: LoadAnswer,
    nodes: &mut [f64],
    values: &mut [f64],
    out: &mut [u8],
) {
    if loaded.answer.number != 0 {
        return;
    }
    let n = head.lent_nodes.min(nodes.len());
    let m = head.lent_values.min(values.len());
    let made = write_again(loaded.shape, &nodes[..n], &values[..m], out);
    if made.answer.number != 0 {
        return;
    }
    let length = made.length;
    line::say_again();
    load_entry(&out[..length], nodes, values);
}

// Reads an image and runs it.
fn run(
    head: Head,
    img: &mut [u8],
    nodes: &mut [f64],
    values: &mut [f64],
    out: &mut [u8],
) -> Result<(), Stop> {
    list::read_rest(img)?;
    let loaded = load_entry(img, nodes, values);
    write_back(head, loaded, nodes, values, out);
    list::end(b"\n")
}

// Takes the next image of the list, in the fronts of the spaces.
fn take(
    space: &mut [u8],
    nodes: &mut [f64],
    values: &mut [f64],
    written: &mut [u8],
) -> Result<(), Stop> {
    let head = heads::read_head()?;
    let length = head.length.min(space.len());
    let n = head.nodes.min(nodes.len());
    let m = head.values.min(values.len());
    let room = head.room.min(written.len());
    run(
        head,
        &mut space[..length],
        &mut nodes[..n],
        &mut values[..m],
        &mut written[..room],
    )
}

fn main() {
    let mut space = [0u8; heads::MOST_BYTES];
    let mut nodes = [0.0f64; outputs::MOST_NODES];
    let mut values = [0.0f64; outputs::MOST_VALUES];
    let mut written = [0u8; heads::MOST_BYTES];
    // A proved loop has to end: more turns than any list has images.
    for _ in 0..u64::MAX {
        if let Err(stop) = take(&mut space, &mut nodes, &mut values, &mut written) {
            return list::say_stop(stop);
        }
    }
}
