// Records from an input, block by block, to lines on an output.
ghost use Rattle.std.specs.Prelude.{◌≡◌, ◌≤◌, length};
ghost use Rattle.lines.specs.Line.{longest};
ghost use Rattle.lines.specs.Stream.{lines_of};
ghost use Rattle.program.specs.Run.{rule_of};
ghost use Rattle.program.specs.Whole.{TableOf};
ghost use Rattle.lookup.specs.Whole.{Whole};
ghost use Rattle.lookup.specs.Scaffolding.{Countable, Room, Last, Stepped, Ended};

use crate::print;
use layout::Shape;
use ninterp::records::block;
use program::print::Unprinted;
use program::{Counts, Ports, input, stdin, turns};
use std::io::{Read, Write};

// What a turn leaves: how many bytes are held, how many records may still come, whether to go on, and whether the output stands.
#[derive(Clone, Copy)]
struct Next {
    held: usize,
    left: usize,
    go: bool,
    printed: Result<usize, Unprinted>,
}

// Reads on after the bytes that are held, answers the whole records, prints their lines, and moves what is left to the front.
fn step<R: Read, W: Write>(
    ports: &mut Ports<R, W>,
    img: &[u8],
    shape: Shape,
    nodes: &[f64],
    values: &[f64],
    size: usize,
    buf: &mut [u8],
    out: &mut [u8],
    held: usize,
    left: usize,
) -> Next
    requires table_of { TableOf img.now shape nodes.now values.now }
    requires room { Room (rule_of img.now) size held buf.old out.old ports.old.counts }
    ensures { Stepped (rule_of img.now) held left buf.old buf.new (length out.old) ports.old.counts ports.new.counts result }
{
    let asked = buf.len() - held;
    let have = stdin::fill(&mut ports.from, buf, held);
    let read = have - held;
    ports.counts.asked += asked;
    ports.counts.read += read;
    let done = block::answer_block(shape, nodes, values, &buf[..have], left, out);
    let count = done.count;
    let written = done.written;
    let printed = print::lines(&mut ports.to, img, &buf[..have], count, &out[..written]);
    let told = printed.unwrap_or_else(|unprinted| unprinted.bytes);
    ports.counts.printed += told;
    let used = count * size;
    let rest = have - used;
    turns::shift(buf, used, rest);
    let more = left - count;
    let full = have == buf.len();
    Next {
        held: rest,
        left: more,
        go: input::goes_on(printed.is_ok(), full, more, rest >= size),
        printed,
    }
}

// Prints what is printed at the input's end, of the bytes that are left.
fn end<R, W: Write>(
    ports: &mut Ports<R, W>,
    img: &[u8],
    rest: &[u8],
    left: usize,
    out: &mut [u8],
) -> Result<(), Unprinted>
    requires room { longest ≤ length out.old }
    requires last { Last (rule_of img.now) left rest.now }
    requires printed_fits { Countable ports.old.counts.printed (length out.old) }
    ensures { Ended (length (lines_of (rule_of img.now) left rest.now)) (length out.old) ports.old.counts ports.new.counts }
{
    let n = input::finish(rest.len(), left, out);
    let printed = print::end(&mut ports.to, img, rest, left, &out[..n]);
    let last = printed.unwrap_or_else(|unprinted| unprinted.bytes);
    ports.counts.printed += last;
    printed?;
    Ok(())
}

// Answers records until the input ends, or 1,000,000 are answered, through a buffer and an output.
fn answer_blocks<R: Read, W: Write>(
    ports: &mut Ports<R, W>,
    img: &[u8],
    shape: Shape,
    nodes: &[f64],
    values: &[f64],
    buf: &mut [u8],
    out: &mut [u8],
) -> Result<(), Unprinted>
    requires table_of { TableOf img.now shape nodes.now values.now }
    requires buf_len { (length buf.old ≡ 32768) × (length out.old ≡ 81920) }
    ensures { Whole img.now ports.new.counts result }
{
    let size = 1 + 8 * shape.axes;
    let mut held: usize = 0;
    let mut left: usize = program::MOST_RECORDS;
    let mut go = true;
    let mut printed = Ok(0);
    ports.counts = Counts::none();
    while go {
        let next = step(ports, img, shape, nodes, values, size, buf, out, held, left);
        held = next.held;
        left = next.left;
        go = next.go;
        printed = next.printed;
    }
    printed?;
    end(ports, img, &buf[..held], left, out)
}

// Answers the records that follow an image.
pub(crate) fn answer_all<R: Read, W: Write>(
    ports: &mut Ports<R, W>,
    img: &[u8],
    shape: Shape,
    nodes: &[f64],
    values: &[f64],
) -> Result<(), Unprinted>
    requires { TableOf img.now shape nodes.now values.now }
    ensures { Whole img.now ports.new.counts result }
{
    // The lines of a full buffer have room: of 9-byte records it has 3,640, and no line of a record has more than 20 bytes.
    let mut buf = [0u8; 32768];
    let mut out = [0u8; 81920];
    answer_blocks(ports, img, shape, nodes, values, &mut buf, &mut out)
}
