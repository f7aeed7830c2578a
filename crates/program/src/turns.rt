// A turn of a program's buffer: what is left of its bytes once its records are answered is moved to its front.
ghost use Rattle.std.specs.Prelude.{◌≡◌};
ghost use Rattle.program.specs.Scaffolding.{shifted};

// Moves the n bytes at a place to the front, where they are all there.
pub fn shift(buf: &mut [u8], from: usize, n: usize)
    ensures { buf.new ≡ shifted buf.old from n }
{
    if from <= buf.len() && n <= buf.len() - from {
        buf.copy_within(from..from + n, 0);
    }
}
