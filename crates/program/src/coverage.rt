// The coverage report: the records of an input counted in a tally, and what the program prints of it, put into an output. Nothing is
// read or printed.
ghost use Rattle.std.specs.Prelude.{◌≡◌, true, ◌≤◌, length};
ghost use Rattle.answer.specs.Faults.{good};
ghost use Rattle.checks.specs.Shapes.{shape_fault};
ghost use Rattle.lines.specs.Report.{report_most, report_into, report_end};
ghost use Rattle.program.specs.Coverage.{coverage_report, coverage_of, report_on, last_report};
ghost use Rattle.program.specs.Run.{Texted};
ghost use Rattle.program.specs.Scaffolding.{Fronted, text_of};

use crate::run::RunAnswer;
use crate::{front, run};
use answer::Answer;
use layout::Shape;
use lines::report;
use ninterp::records::count;
use tally::Tally;

// Puts the report of a tally at the front of a buffer that has room for any, else nothing, and gives how many bytes it wrote.
pub fn put(shape: Shape, t: Tally, past: bool, out: &mut [u8]) -> usize
    ensures value { (result ≡ report_end (report_on shape t past) out.old)
        × (out.new ≡ report_into (report_on shape t past) out.old) }
    ensures upper_bound { result ≤ length out.old }
{
    let counts = shape.counts;
    let cells = t.cells;
    let numbers = t.numbers;
    report::put(shape.axes, counts, &cells, &numbers, past, out)
}

// Counts what is left at the input's end, and puts the report of the tally after it.
pub fn finish(
    t: Tally,
    shape: Shape,
    nodes: &[f64],
    values: &[f64],
    rest: &[u8],
    out: &mut [u8],
) -> usize
    ensures value { (result ≡ report_end (last_report t shape nodes.now values.now rest.now) out.old)
        × (out.new
        ≡ report_into (last_report t shape nodes.now values.now rest.now) out.old) }
    ensures upper_bound { result ≤ length out.old }
{
    let last = count::counted_rest(t, shape, nodes, values, rest);
    put(shape, last.tally, last.answer.number != 0, out)
}

// ---- one whole run as a call

// Puts the report of the records of a table, and gives its length.
fn put_records(
    shape: Shape,
    nodes: &[f64],
    values: &[f64],
    records: &[u8],
    chunk: &mut [u8],
) -> usize
    requires { (good (shape_fault shape) ≡ true) × (length chunk.old ≡ report_most) }
    ensures fronted { Fronted (coverage_report shape nodes.now values.now records.now)
        chunk.old chunk.new result }
    ensures upper_bound { result ≤ report_most }
{
    let done = count::count_block(tally::none_read(), shape, nodes, values, records);
    let used = done.used;
    finish(done.tally, shape, nodes, values, &records[used..], chunk)
}

// Puts the line of an image that is refused, or else the report of the records, and gives its length.
fn put_text(
    loaded: Answer,
    shape: Shape,
    nodes: &[f64],
    values: &[f64],
    records: &[u8],
    chunk: &mut [u8],
) -> usize
    requires { (loaded.number ≡ 0 → good (shape_fault shape) ≡ true) × (length chunk.old ≡ report_most) }
    ensures fronted { Fronted (text_of loaded (coverage_report shape nodes.now values.now records.now))
        chunk.old chunk.new result }
    ensures upper_bound { result ≤ report_most }
{
    if loaded.number != 0 {
        return lines::put_line(loaded, chunk, 0);
    }
    put_records(shape, nodes, values, records, chunk)
}

// Puts a text at the front of an output where it has room.
fn give(text: &[u8], out: &mut [u8]) -> RunAnswer
    ensures { Texted text.now out.old out.new result }
{
    let done = run::room_answer(text.len(), out.len());
    lines::put_all(text, out, 0);
    done
}

// The run, with space for the nodes, the values and a report.
fn run_in(
    input: &[u8],
    nodes: &mut [f64],
    values: &mut [f64],
    chunk: &mut [u8],
    out: &mut [u8],
) -> RunAnswer
    requires { (length nodes.old ≡ 256) × ((length values.old ≡ 4096) × (length chunk.old ≡ report_most)) }
    ensures { Texted (coverage_of input.now) out.old out.new result }
{
    let loaded = front::load(input, nodes, values);
    let n = loaded.nodes;
    let v = loaded.values;
    let size = loaded.size;
    let long = put_text(
        loaded.answer,
        loaded.shape,
        &nodes[..n],
        &values[..v],
        &input[size..],
        chunk,
    );
    give(&chunk[..long], out)
}

// Puts what the program prints of an input at the front of an output, which may be longer.
pub fn run(input: &[u8], out: &mut [u8]) -> RunAnswer
    ensures { Texted (coverage_of input.now) out.old out.new result }
{
    let mut nodes = [0.0f64; 256];
    let mut values = [0.0f64; 4096];
    let mut chunk = [0u8; report::MOST];
    run_in(input, &mut nodes, &mut values, &mut chunk, out)
}
