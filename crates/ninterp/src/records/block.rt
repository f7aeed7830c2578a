// A block of records to a block of lines: the table is judged once for all of them.
ghost use Rattle.std.specs.Prelude.{◌≡◌, ◌+◌, ◌≤◌, length};
ghost use Rattle.lines.specs.Line.{line_of, longest};
ghost use Rattle.lines.specs.Scaffolding.{Wrote};
ghost use Rattle.lines.specs.Stream.{Block};
ghost use Rattle.ninterp.specs.Records.{record_size, record_answer, record_rule};
ghost use Rattle.ninterp.specs.Scaffolding.{Known};

use crate::records;
use answer::Refusal;
use checks::table;
use layout::Shape;

// How many records were answered, and how many bytes their lines have.
#[derive(Clone, Copy)]
pub struct Done {
    pub count: usize,
    pub written: usize,
}

// Puts the line of a record of the right length at a place where a longest one has room, and gives the place past it.
fn put_answer(
    shape: Shape,
    nodes: &[f64],
    values: &[f64],
    table: Result<(), Refusal>,
    uniform: Result<(), Refusal>,
    rec: &[u8],
    out: &mut [u8],
    to: usize,
) -> usize
    requires known { Known shape nodes.now values.now table uniform }
    requires rec_len { (length rec.now ≡ record_size shape) × (to + longest ≤ length out.old) }
    ensures wrote { Wrote out.old to
        (line_of (record_answer shape nodes.now values.now rec.now)) out.new result }
    ensures upper_bound { result ≤ to + longest }
{
    let a = records::whole_answer(shape, nodes, values, table, uniform, rec);
    lines::put_line(a, out, to)
}

// The records of a table of which it is known what 1 to 7 and 8 give.
fn answer_records(
    shape: Shape,
    nodes: &[f64],
    values: &[f64],
    table: Result<(), Refusal>,
    uniform: Result<(), Refusal>,
    size: usize,
    records: &[u8],
    most: usize,
    out: &mut [u8],
) -> Done
    requires known { Known shape nodes.now values.now table uniform }
    requires size_value { size ≡ record_size shape }
    ensures { Block (record_rule shape nodes.now values.now) most records.now
        out.old out.new result.count result.written }
{
    let mut done = Done {
        count: 0,
        written: 0,
    };
    for rec in records.chunks_exact(size).take(most) {
        if out.len() - done.written < lines::LONGEST {
            break;
        }
        done.written = put_answer(shape, nodes, values, table, uniform, rec, out, done.written);
        done.count += 1;
    }
    done
}

// Answers the whole records of a block in order, until `most` are, or no whole one is left, or a longest line has no room.
pub fn answer_block(
    shape: Shape,
    nodes: &[f64],
    values: &[f64],
    records: &[u8],
    most: usize,
    out: &mut [u8],
) -> Done
    ensures { Block (record_rule shape nodes.now values.now) most records.now
        out.old out.new result.count result.written }
{
    if !records::is_whole(shape, records.len()) {
        return Done {
            count: 0,
            written: 0,
        };
    }
    let table = records::whole_table_fault(shape, nodes, values);
    let uniform = table::axes_uniform_fault(shape, nodes);
    let size = 1 + 8 * shape.axes;
    answer_records(
        shape, nodes, values, table, uniform, size, records, most, out,
    )
}
