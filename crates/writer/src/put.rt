// Numbers and floats put into an output as little-endian bytes.
ghost use Rattle.std.specs.Prelude.{◌≡◌, ◌+◌, ◌*◌, ◌≤◌, length};
ghost use Rattle.std.proofs.lemmas.List.Edits.{sets};
ghost use Rattle.little_endian.specs.Words.{to_bytes};
ghost use Rattle.writer.specs.Made.{float_bytes};

// The n lowest bytes of a number, the lowest first.
pub(crate) fn put_word(out: &mut [u8], at: usize, n: usize, x: u64)
    requires width { n ≤ 8 }
    requires room { at + n ≤ length out.old }
    ensures { out.new ≡ sets out.old at (to_bytes n x) }
{
    let bytes = x.to_le_bytes();
    out[at..at + n].copy_from_slice(&bytes[..n]);
}

// The bits of floats, eight bytes each.
pub(crate) fn put_floats(floats: &[f64], out: &mut [u8], at: usize)
    requires { at + 8 * length floats.now ≤ length out.old }
    ensures { out.new ≡ sets out.old at (float_bytes floats.now) }
{
    for (i, x) in floats.iter().enumerate() {
        put_word(out, at + 8 * i, 8, binary64::bits_of_float(*x));
    }
}
