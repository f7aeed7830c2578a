// What is printed of records: the report, once. It asks that the text it is lent is the right one, and tells how long it is.
ghost use Rattle.std.specs.Prelude.{◌≡◌, IfOk, IfErr, length};
ghost use Rattle.coverage.specs.Whole.{Reported};

use program::print;
use program::print::Unprinted;
use std::io::Write;

// The report of the image and of records of as many bytes as were read.
pub(crate) fn report<W: Write>(
    to: &mut W,
    img: &[u8],
    read: usize,
    text: &[u8],
) -> Result<usize, Unprinted>
    requires { Reported img.now read text.now }
    ensures printed { IfOk result (λ n. n ≡ length text.now) }
    ensures unprinted { IfErr result (λ e. e.bytes ≡ length text.now) }
{
    print::write(to, text)
}
