// An answer's line put into a buffer, and the coverage report. What is printed of records, block by block, is in specs/Stream.antt.
#![tactic(auto, using(crate::proofs::Shows::shows), unfolding(crate::specs::Put::line_end, crate::specs::Put::line_into, crate::specs::Put::room_for, crate::specs::Put::all_into, crate::specs::Line::line_of))]

ghost use Rattle.std.specs.Prelude.{◌≡◌, ◌+◌, ◌≤◌, length, leb};
ghost use Rattle.lines.specs.Line.{ok_line, longest};
ghost use Rattle.lines.specs.Put.{line_into, line_end, all_into};
ghost use Rattle.lines.specs.Scaffolding.{Wrote};

pub mod report;
pub(crate) mod text;

use answer::Answer;

// The length of a longest line.
pub const LONGEST: usize = 56;

// Whether n bytes from a place on end within a length.
fn within(at: usize, n: usize, len: usize) -> bool
    ensures { result ≡ leb (at + n) len }
{
    at <= len && n <= len - at
}

fn put_ok(value: f64, out: &mut [u8], at: usize) -> usize
    requires { at + 20 ≤ length out.old }
    ensures { Wrote out.old at (ok_line value) out.new result }
{
    let a = text::put_bytes(b"ok ", out, at);
    let b = text::put_digits(binary64::bits_of_float(value), 16, 16, out, a);
    text::put_byte(b'\n', out, b)
}

// Puts an answer's line at a place and gives the place past it; writes nothing where a longest line has no room.
pub fn put_line(a: Answer, out: &mut [u8], at: usize) -> usize
    ensures value { (result ≡ line_end a out.old at) × (out.new ≡ line_into a out.old at) }
    ensures upper_bound { result ≤ at + longest }
{
    if !within(at, LONGEST, out.len()) {
        return at;
    }
    if a.number == 0 {
        put_ok(a.value, out, at)
    } else {
        let numbers = [a.axis as u64, a.place as u64];
        text::put_fields(b"no ", u64::from(a.number), &numbers, out, at)
    }
}

// Puts bytes at a place where they all have room, else none of them.
pub fn put_all(src: &[u8], out: &mut [u8], at: usize)
    ensures { out.new ≡ all_into src.now out.old at }
{
    if within(at, src.len(), out.len()) {
        text::put_bytes(src, out, at);
    }
}
