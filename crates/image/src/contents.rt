// What lies in the areas: the room that is lent for it; read, and judged before anything lent is written.
#![tactic(auto, using(answer::proofs::Checks::hands, answer::proofs::Checks::stops, answer::proofs::Checks::goes_on, crate::proofs::Floats::nodes_few, crate::proofs::Floats::values_few))]

ghost use Rattle.std.specs.Prelude.{◌≡◌, length};
ghost use Rattle.answer.specs.Rows.{said};
ghost use Rattle.answer.specs.Faults.{◌or◌};
ghost use Rattle.checks.specs.Numbers.{room_fault};
ghost use Rattle.image.specs.Image.{floats_at, nodes_in, values_in};
ghost use Rattle.image.specs.Load.{contents_fault};
ghost use Rattle.image.specs.Scaffolding.{Held, FloatsRoom, NodesRoom, Rooms};

use crate::fields;
use answer::Refusal;
use checks::lent;
use checks::shapes::Holding;
use orders::stages;

// 15: an output that is too short.
pub(crate) fn rooms_fault(held: Holding, nodes: usize, values: usize) -> Result<(), Refusal>
    ensures { said result ≡ (room_fault 0 held.nodes nodes or room_fault 1 held.values values) }
{
    lent::room_fault(0, held.nodes, nodes)?;
    lent::room_fault(1, held.values, values)
}

// Reads as many floats as an output has.
fn read_floats(img: &[u8], at: usize, out: &mut [f64])
    requires { FloatsRoom at (length out.old) }
    ensures { out.new ≡ floats_at img.now at (length out.old) }
{
    for (i, x) in out.iter_mut().enumerate() {
        *x = little_endian::float(img, at + 8 * i);
    }
}

// Reads the nodes, axis after axis.
fn read_nodes(img: &[u8], out: &mut [f64])
    requires { NodesRoom img.now (length out.old) }
    ensures { out.new ≡ nodes_in img.now }
{
    let mut to = 0;
    for a in 0..fields::axes_of(img) {
        let end = to + fields::count_of(img, a);
        read_floats(img, fields::offset_of(img, a), &mut out[to..end]);
        to = end;
    }
}

// Reads the nodes and the values into two outputs of their sizes.
pub(crate) fn read(img: &[u8], nodes: &mut [f64], values: &mut [f64])
    requires { Rooms img.now (length nodes.old) (length values.old) }
    ensures nodes { nodes.new ≡ nodes_in img.now }
    ensures values { values.new ≡ values_in img.now }
{
    read_nodes(img, nodes);
    read_floats(img, fields::values_at(img), values);
}

// 4 to 7, of what is read into two spaces of its own, so that nothing lent is written. They begin as ones: zeros would be laid by C's
// memset, which a board need not have.
pub(crate) fn contents_fault(img: &[u8], held: Holding) -> Result<(), Refusal>
    requires { Held img.now held }
    ensures { said result ≡ contents_fault img.now }
{
    let mut nodes = [1.0f64; 256];
    let mut values = [1.0f64; 4096];
    let nodes = &mut nodes[..held.nodes];
    let values = &mut values[..held.values];
    read(img, nodes, values);
    stages::stored_fault(fields::shape_of(img), nodes, values)
}
