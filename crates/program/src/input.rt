// What the program does with the bytes of its input, of whatever table: where the image ends, whether to read
// on, and the input's end.
ghost use Rattle.std.specs.Prelude.{◌≡◌};
ghost use Rattle.program.specs.Input.{image_size, goes_on, end_size, end_into};

use answer::{Answer, Row};

// How many bytes the image is to have, by what its first bytes state.
pub fn image_size(head: &[u8]) -> usize
    ensures { result ≡ image_size head.now }
{
    let stated = little_endian::word(head, 4, 4) as usize;
    if stated < image::HEADER {
        return image::HEADER;
    }
    if stated > image::MOST_BYTES {
        return image::HEADER;
    }
    stated
}

// Whether to read on.
pub fn goes_on(ok: bool, full: bool, left: usize, whole: bool) -> bool
    ensures { result ≡ goes_on ok full left whole }
{
    ok && left != 0 && (full || whole)
}

// Puts what is printed at the input's end, where so many bytes are left and so many records may still come.
pub fn finish(rest: usize, left: usize, out: &mut [u8]) -> usize
    ensures { (result ≡ end_size rest left out.old) × (out.new ≡ end_into rest left out.old) }
{
    if left == 0 {
        return 0;
    }
    if rest == 0 {
        return 0;
    }
    lines::put_line(Answer::from(Row::Length.at(0, 2)), out, 0)
}
