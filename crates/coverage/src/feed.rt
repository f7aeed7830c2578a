// Records from an input, counted block by block.
ghost use Rattle.std.specs.Prelude.{◌≡◌, ◌&&◌, ◌≤◌, ltb, length};
ghost use Rattle.lines.specs.Report.{report_most};
ghost use Rattle.program.specs.Coverage.{last_report};
ghost use Rattle.program.specs.Whole.{TableOf};
ghost use Rattle.coverage.specs.Whole.{Whole, Reported};
ghost use Rattle.coverage.specs.Scaffolding.{Room, Stepped, Ended};

use crate::print;
use layout::Shape;
use lines::report;
use ninterp::records::count;
use program::print::Unprinted;
use program::{Counts, Ports, coverage, stdin, turns};
use std::io::{Read, Write};
use tally::Tally;

// What a turn leaves: the tally, how many bytes are held, and whether to go on.
#[derive(Clone, Copy)]
struct Next {
    tally: Tally,
    held: usize,
    go: bool,
}

// Whether to read on: the buffer was filled, and no whole record is left. One is left only after the last that may be counted.
fn goes_on(full: bool, rest: usize, size: usize) -> bool
    ensures { result ≡ full && ltb rest size }
{
    full && rest < size
}

// Reads on after the bytes that are held, counts the whole records, and moves what is left to the front.
fn step<R: Read, W>(
    ports: &mut Ports<R, W>,
    shape: Shape,
    nodes: &[f64],
    values: &[f64],
    size: usize,
    buf: &mut [u8],
    held: usize,
    t: Tally,
) -> Next
    requires { Room shape size held buf.old ports.old.counts }
    ensures { Stepped shape nodes.now values.now held t buf.old buf.new ports.old.counts ports.new.counts result }
{
    let asked = buf.len() - held;
    let have = stdin::fill(&mut ports.from, buf, held);
    let read = have - held;
    ports.counts.asked += asked;
    ports.counts.read += read;
    let done = count::count_block(t, shape, nodes, values, &buf[..have]);
    let tally = done.tally;
    let used = done.used;
    let rest = have - used;
    turns::shift(buf, used, rest);
    let full = have == buf.len();
    Next {
        tally,
        held: rest,
        go: goes_on(full, rest, size),
    }
}

// Counts what is left at the input's end, and prints the report.
fn end<R, W: Write>(
    ports: &mut Ports<R, W>,
    img: &[u8],
    shape: Shape,
    nodes: &[f64],
    values: &[f64],
    t: Tally,
    rest: &[u8],
    out: &mut [u8],
) -> Result<(), Unprinted>
    requires reported { Reported img.now ports.old.counts.read (last_report t shape nodes.now values.now rest.now) }
    requires report_most_in_bounds { report_most ≤ length out.old }
    ensures { Ended (length (last_report t shape nodes.now values.now rest.now)) ports.old.counts ports.new.counts }
{
    let n = coverage::finish(t, shape, nodes, values, rest, out);
    let read = ports.counts.read;
    let printed = print::report(&mut ports.to, img, read, &out[..n]);
    let told = printed.unwrap_or_else(|unprinted| unprinted.bytes);
    ports.counts.printed = told;
    printed?;
    Ok(())
}

// Counts records until the input ends, or bytes come after 1,000,000 of them, through a buffer, and prints the report.
fn count_blocks<R: Read, W: Write>(
    ports: &mut Ports<R, W>,
    img: &[u8],
    shape: Shape,
    nodes: &[f64],
    values: &[f64],
    buf: &mut [u8],
    out: &mut [u8],
) -> Result<(), Unprinted>
    requires table_of { TableOf img.now shape nodes.now values.now }
    requires buf_len { (length buf.old ≡ 32768) × (length out.old ≡ report_most) }
    ensures { Whole img.now ports.new.counts result }
{
    let size = 1 + 8 * shape.axes;
    let mut t = tally::none_read();
    let mut held: usize = 0;
    let mut go = true;
    ports.counts = Counts::none();
    while go {
        let next = step(ports, shape, nodes, values, size, buf, held, t);
        t = next.tally;
        held = next.held;
        go = next.go;
    }
    end(ports, img, shape, nodes, values, t, &buf[..held], out)
}

// Counts the records that follow an image.
pub(crate) fn count_all<R: Read, W: Write>(
    ports: &mut Ports<R, W>,
    img: &[u8],
    shape: Shape,
    nodes: &[f64],
    values: &[f64],
) -> Result<(), Unprinted>
    requires { TableOf img.now shape nodes.now values.now }
    ensures { Whole img.now ports.new.counts result }
{
    let mut buf = [0u8; 32768];
    let mut out = [0u8; report::MOST];
    count_blocks(ports, img, shape, nodes, values, &mut buf, &mut out)
}
