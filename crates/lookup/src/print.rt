// What is printed of records. Each function asks that the text it is lent is the right one of the other things it is lent, and tells how
// long it is.
ghost use Rattle.std.specs.Prelude.{◌≡◌, IfOk, IfErr, length};
ghost use Rattle.lines.specs.Stream.{lines_first, lines_of};
ghost use Rattle.program.specs.Run.{rule_of};

use program::print;
use program::print::Unprinted;
use std::io::Write;

// The lines of the first so many records of those that are held.
pub(crate) fn lines<W: Write>(
    to: &mut W,
    img: &[u8],
    held: &[u8],
    count: usize,
    text: &[u8],
) -> Result<usize, Unprinted>
    requires { text.now ≡ lines_first (rule_of img.now) count held.now }
    ensures printed { IfOk result (λ n. n ≡ length (lines_first (rule_of img.now) count held.now)) }
    ensures unprinted { IfErr result (λ e. e.bytes ≡ length (lines_first (rule_of img.now) count held.now)) }
{
    print::write(to, text)
}

// What is printed of the rest of the input, where so many records may still come.
pub(crate) fn end<W: Write>(
    to: &mut W,
    img: &[u8],
    rest: &[u8],
    left: usize,
    text: &[u8],
) -> Result<usize, Unprinted>
    requires { text.now ≡ lines_of (rule_of img.now) left rest.now }
    ensures printed { IfOk result (λ n. n ≡ length (lines_of (rule_of img.now) left rest.now)) }
    ensures unprinted { IfErr result (λ e. e.bytes ≡ length (lines_of (rule_of img.now) left rest.now)) }
{
    print::write(to, text)
}
