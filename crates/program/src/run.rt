// One whole run as a call: what the program prints of an input, put into an output. Nothing is read or printed.
ghost use Rattle.std.specs.Prelude.{◌≡◌, ◌≤◌, length};
ghost use Rattle.answer.specs.Answer.{refused};
ghost use Rattle.answer.specs.Rows.{fault_of};
ghost use Rattle.lines.specs.Line.{line_of, longest};
ghost use Rattle.lines.specs.Stream.{lines_first, lines_of, Block};
ghost use Rattle.ninterp.specs.Records.{record_rule, record_size};
ghost use Rattle.program.specs.Scaffolding.{Placed, Fronted, end_of, room_answer, text_of};
ghost use Rattle.program.specs.Run.{run_of, Texted};
ghost use Rattle.checks.specs.Numbers.{most_records};

use crate::{front, input};
use answer::{Answer, Refusal};
use checks::lent;
use layout::Shape;
use ninterp::records::block;
use ninterp::records::block::Done;
use std::convert::From;

// The answer, with how many bytes were written.
#[derive(Clone, Copy)]
pub struct RunAnswer {
    pub answer: Answer,
    pub written: usize,
}

// The answer of a refusal, where nothing is written.
impl From<Refusal> for RunAnswer {
    ghost from_gives = { λ r a. a ≡ record { answer = refused (fault_of r); written = 0 } };

    fn from(refusal: Refusal) -> RunAnswer {
        RunAnswer {
            answer: Answer::from(refusal),
            written: 0,
        }
    }
}

// The lines of as many records as have room are made at a time; the table is judged once for them.
const CHUNK: usize = 4096;

// Puts an answer's line at a place where it has room, and gives its length.
fn put_answer(a: Answer, chunk: &mut [u8], out: &mut [u8], to: usize) -> usize
    requires { longest ≤ length chunk.old }
    ensures { Placed (line_of a) out.old to out.new result }
{
    let n = lines::put_line(a, chunk, 0);
    lines::put_all(&chunk[..n], out, to);
    n
}

// Puts what is said at the end of the records at a place where it has room, and gives its length.
fn put_end(rest: usize, left: usize, chunk: &mut [u8], out: &mut [u8], to: usize) -> usize
    requires { longest ≤ length chunk.old }
    ensures placed { Placed (end_of rest left) out.old to out.new result }
    ensures upper_bound { result ≤ longest }
{
    let n = input::finish(rest, left, chunk);
    lines::put_all(&chunk[..n], out, to);
    n
}

// Answers as many records as the chunk has room for, and puts their lines at a place where they have room.
fn put_chunk(
    shape: Shape,
    nodes: &[f64],
    values: &[f64],
    records: &[u8],
    most: usize,
    chunk: &mut [u8],
    out: &mut [u8],
    to: usize,
) -> Done
    ensures block { Block (record_rule shape nodes.now values.now) most records.now
        chunk.old chunk.new result.count result.written }
    ensures placed { Placed (lines_first (record_rule shape nodes.now values.now) result.count records.now)
        out.old to out.new result.written }
{
    let done = block::answer_block(shape, nodes, values, records, most, chunk);
    let n = done.written;
    lines::put_all(&chunk[..n], out, to);
    done
}

// Puts the lines of all records, and gives their length.
fn put_records(
    shape: Shape,
    nodes: &[f64],
    values: &[f64],
    size: usize,
    records: &[u8],
    chunk: &mut [u8],
    out: &mut [u8],
) -> usize
    requires { (size ≡ record_size shape) × (length chunk.old ≡ 4096) }
    ensures { Fronted (lines_of (record_rule shape nodes.now values.now) most_records records.now)
        out.old out.new result }
{
    let mut at: usize = 0;
    let mut left: usize = crate::MOST_RECORDS;
    let mut total: usize = 0;
    while left > 0 && records.len() - at >= size {
        let done = put_chunk(
            shape,
            nodes,
            values,
            &records[at..],
            left,
            chunk,
            out,
            total,
        );
        at += done.count * size;
        left -= done.count;
        total += done.written;
    }
    total + put_end(records.len() - at, left, chunk, out, total)
}

// Puts the line of an image that is refused, or else the lines of the records, and gives their length.
fn put_text(
    loaded: Answer,
    shape: Shape,
    nodes: &[f64],
    values: &[f64],
    records: &[u8],
    chunk: &mut [u8],
    out: &mut [u8],
) -> usize
    requires { (shape.axes ≤ 4) × (length chunk.old ≡ 4096) }
    ensures { Fronted
        (text_of loaded (lines_of (record_rule shape nodes.now values.now) most_records records.now))
        out.old out.new result }
{
    if loaded.number != 0 {
        return put_answer(loaded, chunk, out, 0);
    }
    put_records(
        shape,
        nodes,
        values,
        1 + 8 * shape.axes,
        records,
        chunk,
        out,
    )
}

// What is answered of a text of so many bytes, for which there is so much room.
pub(crate) fn room_answer(need: usize, room: usize) -> RunAnswer
    ensures { result ≡ room_answer need room }
{
    match lent::room_fault(2, need, room) {
        Ok(()) => RunAnswer {
            answer: answer::pass(),
            written: need,
        },
        Err(refusal) => RunAnswer::from(refusal),
    }
}

// Puts the text where it has room: its length is found first, in an output of no bytes.
fn give_text(
    loaded: Answer,
    shape: Shape,
    nodes: &[f64],
    values: &[f64],
    records: &[u8],
    chunk: &mut [u8],
    out: &mut [u8],
) -> RunAnswer
    requires { (shape.axes ≤ 4) × (length chunk.old ≡ 4096) }
    ensures { Texted
        (text_of loaded (lines_of (record_rule shape nodes.now values.now) most_records records.now))
        out.old out.new result }
{
    let need = put_text(loaded, shape, nodes, values, records, chunk, &mut out[..0]);
    let done = room_answer(need, out.len());
    if done.answer.number != 0 {
        return done;
    }
    put_text(loaded, shape, nodes, values, records, chunk, out);
    done
}

// The run, with space for the nodes, the values and some lines.
fn run_in(
    input: &[u8],
    nodes: &mut [f64],
    values: &mut [f64],
    chunk: &mut [u8],
    out: &mut [u8],
) -> RunAnswer
    requires { (length nodes.old ≡ 256) × ((length values.old ≡ 4096) × (length chunk.old ≡ 4096)) }
    ensures { Texted (run_of input.now) out.old out.new result }
{
    let loaded = front::load(input, nodes, values);
    let n = loaded.nodes;
    let v = loaded.values;
    let size = loaded.size;
    give_text(
        loaded.answer,
        loaded.shape,
        &nodes[..n],
        &values[..v],
        &input[size..],
        chunk,
        out,
    )
}

// Puts what the program prints of an input at the front of an output, which may be longer.
pub fn run(input: &[u8], out: &mut [u8]) -> RunAnswer
    ensures { Texted (run_of input.now) out.old out.new result }
{
    let mut nodes = [0.0f64; 256];
    let mut values = [0.0f64; 4096];
    let mut chunk = [0u8; CHUNK];
    run_in(input, &mut nodes, &mut values, &mut chunk, out)
}
