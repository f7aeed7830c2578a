// Answers the list of calls on standard input, a line for each, or for a slice several. The list and the lines are those of
// oracle/README.md.
#![tactic(auto)]

mod calls;
mod cut;
mod line;
mod records;
mod tables;

ghost use Rattle.std.specs.Prelude.{◌≡◌, ◌≤◌, length, IfOk};
ghost use Rattle.test_replay.specs.Scaffolding.{HoldsTable};

use layout::Shape;
use records::{Header, Op};
use tables::Table;
use test_runs::list;
use test_runs::list::Stop;

// What the list has lent: how many nodes the axis has, and the table.
#[derive(Clone, Copy)]
struct Lent {
    count: usize,
    table: Table,
}

// Reads an axis's nodes, and tells how many there are.
fn lend_axis(call: Header, axis: &mut [f64]) -> Result<usize, Stop>
    requires { length axis.old ≡ 128 }
    ensures { IfOk result (λ count. count ≤ 128) }
{
    let count = usize::from(call.a);
    if count > axis.len() {
        return Err(Stop::BadList);
    }
    records::read_floats(&mut axis[..count])?;
    Ok(count)
}

// Reads a table's nodes and values.
fn lend_table(call: Header, rest: &mut [f64]) -> Result<Table, Stop>
    ensures { IfOk result (λ table. HoldsTable table rest.new) }
{
    let table = tables::of_header(call);
    let size = table.nodes + table.values;
    if size > rest.len() {
        return Err(Stop::BadList);
    }
    records::read_floats(&mut rest[..size])?;
    Ok(table)
}

// Says what a lookup in a table answers, or a slice of it. Step's directions stand in the header; the other rules have none.
fn say_by_rule(call: Header, table: Table, rest: &[f64]) -> Result<(), Stop>
    requires { HoldsTable table rest.now }
{
    let bytes = call.second.to_le_bytes();
    let count = usize::from(call.b).min(8);
    let directions = &bytes[..count];
    let (nodes, after) = rest.split_at(table.nodes);
    let values = &after[..table.values];
    match call.op {
        Op::Nearest | Op::Step | Op::Linear | Op::LinearUniform => {
            tables::say(call, table.shape, nodes, values, directions)
        }
        _ => cut::say(call, table.shape, nodes, values, directions),
    }
}

// Takes the next record of the list: reads what it lends, or says what it calls. An axis lies in its own space, the nodes and the values of
// a table one after the other in theirs.
fn take(axis: &mut [f64], rest: &mut [f64], lent: &mut Lent) -> Result<(), Stop>
    requires axis_len { length axis.old ≡ 128 }
    requires holds { (lent.old.count ≤ 128) × HoldsTable lent.old.table rest.old }
    ensures { (lent.new.count ≤ 128) × HoldsTable lent.new.table rest.new }
{
    let call = records::read_header()?;
    match call.op {
        Op::LendAxis => lent.count = lend_axis(call, axis)?,
        Op::LendTable => {
            lent.table = tables::none();
            lent.table = lend_table(call, rest)?;
        }
        Op::LowerIndex
        | Op::ExactIndex
        | Op::Location
        | Op::StepIndex
        | Op::UniformIndex
        | Op::Grid
        | Op::GridByDefault => calls::say(&axis[..lent.count], call)?,
        _ => say_by_rule(call, lent.table, rest)?,
    }
    Ok(())
}

// Answers the list.
fn main() {
    let mut axis = [0.0f64; calls::MOST_NODES];
    let mut rest = [0.0f64; tables::MOST_NODES + tables::MOST_VALUES];
    let mut lent = Lent {
        count: 0,
        table: tables::none(),
    };
    // A proved loop has to end: more turns than any list has records.
    for _ in 0..u64::MAX {
        if let Err(stop) = take(&mut axis, &mut rest, &mut lent) {
            return list::say_stop(stop);
        }
    }
}
