// The one line that writes, for every program. Each function that reaches it asks that the text it is lent is the right one of the
// other things it is lent, and tells how long it is.
ghost use Rattle.std.specs.Prelude.{◌≡◌, IfOk, IfErr, length};

use std::io::Write;

// The output failed, and a text of so many bytes was not printed, or not all of it.
#[derive(Clone, Copy)]
pub struct Unprinted {
    pub bytes: usize,
}

// Prints a text, and answers how many bytes it has.
pub fn write<W: Write>(to: &mut W, text: &[u8]) -> Result<usize, Unprinted>
    ensures printed { IfOk result (λ n. n ≡ length text.now) }
    ensures unprinted { IfErr result (λ e. e.bytes ≡ length text.now) }
{
    let bytes = text.len();
    match to.write_all(text) {
        Ok(()) => Ok(bytes),
        Err(_) => Err(Unprinted { bytes }),
    }
}
