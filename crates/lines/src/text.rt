// Bytes and digits put into a buffer: each writer gives the place past what it wrote.
#![tactic(auto, using(crate::proofs::Digits::texts))]

ghost use Rattle.std.specs.Prelude.{◌≡◌, [], ◌∷◌, ◌++◌, ◌+◌, ◌<◌, ◌≤◌, length};
ghost use Rattle.lines.specs.Scaffolding.{Wrote, fields_line};
ghost use Rattle.lines.specs.Digit.{glyph_of, digits, places, decimal};

pub(crate) fn put_byte(b: u8, out: &mut [u8], at: usize) -> usize
    requires { at < length out.old }
    ensures { Wrote out.old at (b ∷ []) out.new result }
{
    out[at] = b;
    at + 1
}

pub(crate) fn put_bytes(src: &[u8], out: &mut [u8], at: usize) -> usize
    requires { at + length src.now ≤ length out.old }
    ensures { Wrote out.old at src.now out.new result }
{
    let end = at + src.len();
    out[at..end].copy_from_slice(src);
    end
}

// From ten on (d + 6) / 16 is 1, and `a` lies 39 past what follows `9`. No table: it would be laid on the stack for each digit.
fn glyph(d: u64) -> u8
    requires { d < 16 }
    ensures { result ≡ glyph_of d }
{
    (48 + d + (d + 6) / 16 * 39) as u8
}

// The last k digits of n, written from the lowest up.
pub(crate) fn put_digits(n: u64, base: u64, k: usize, out: &mut [u8], at: usize) -> usize
    requires { (0 < base) × ((base ≤ 16) × (at + k ≤ length out.old)) }
    ensures wrote { Wrote out.old at (digits base k n) out.new result }
    ensures value { result ≡ at + k }
{
    let mut left = n;
    for i in (0..k).rev() {
        out[at + i] = glyph(left % base);
        left /= base;
    }
    at + k
}

// How many decimal digits n has: `0` has one.
fn places_of(n: u64) -> usize
    ensures { result ≡ places 19 n }
{
    n.max(1).ilog10() as usize + 1
}

#[tactic(auto, using(crate::proofs::Digits::texts), unfolding(crate::specs::Digit::decimal))]
fn put_decimal(n: u64, out: &mut [u8], at: usize) -> usize
    requires { at + length (decimal n) ≤ length out.old }
    ensures { Wrote out.old at (decimal n) out.new result }
{
    let k = places_of(n);
    put_digits(n, 10, k, out, at)
}

// A line of a head with its blank and numbers in decimal, a blank between two.
#[tactic(auto, using(crate::proofs::Fields::writes))]
pub(crate) fn put_fields(head: &[u8], first: u64, rest: &[u64], out: &mut [u8], at: usize) -> usize
    requires { at + length (fields_line (head.now ++ decimal first) rest.now) ≤ length out.old }
    ensures { Wrote out.old at (fields_line (head.now ++ decimal first) rest.now) out.new result }
{
    let from = put_bytes(head, out, at);
    let mut next = put_decimal(first, out, from);
    for n in rest {
        let after = put_byte(b' ', out, next);
        next = put_decimal(*n, out, after);
    }
    put_byte(b'\n', out, next)
}
