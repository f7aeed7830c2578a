// A refused image: its line is printed, and no records are read, whatever the program prints of records.
ghost use Rattle.std.specs.Prelude.{◌≡◌, IfOk, IfErr, false, List, ℕ, ◌≤◌, length};
ghost use Rattle.answer.specs.Faults.{good};
ghost use Rattle.image.specs.Load.{load_fault};
ghost use Rattle.lines.specs.Line.{line_of, longest};
ghost use Rattle.program.specs.Input.{image_in};
ghost use Rattle.program.specs.Run.{run_by};
ghost use Rattle.program.specs.Whole.{Ran};

use crate::print::Unprinted;
use crate::{Counts, Ports, front, print};
use answer::Answer;
use std::io::Write;

// Prints what any run prints of an image that is refused.
fn line<W: Write>(to: &mut W, img: &[u8], text: &[u8]) -> Result<usize, Unprinted>
    requires { (by : List ℕ → List ℕ → List ℕ) → text.now ≡ run_by by img.now }
    ensures printed { IfOk result (λ n. n ≡ length text.now) }
    ensures unprinted { IfErr result (λ e. e.bytes ≡ length text.now) }
{
    print::write(to, text)
}

// Puts the line of a refused image and prints it.
fn put_line<W: Write>(
    to: &mut W,
    img: &[u8],
    answer: Answer,
    out: &mut [u8],
) -> Result<usize, Unprinted>
    requires { (longest ≤ length out.old)
        × ((by : List ℕ → List ℕ → List ℕ) → run_by by img.now ≡ line_of answer) }
    ensures printed { IfOk result (λ n. (by : List ℕ → List ℕ → List ℕ) → n ≡ length (run_by by img.now)) }
    ensures unprinted { IfErr result (λ e. (by : List ℕ → List ℕ → List ℕ) → e.bytes ≡ length (run_by by img.now)) }
{
    let end = lines::put_line(answer, out, 0);
    line(to, img, &out[..end])
}

// The run, with space for the nodes, the values and a line.
fn refuse_in<R, W: Write>(
    ports: &mut Ports<R, W>,
    img: &[u8],
    nodes: &mut [f64],
    values: &mut [f64],
    out: &mut [u8],
) -> Result<(), Unprinted>
    requires { (length nodes.old ≡ 256) × ((length values.old ≡ 4096) × (longest ≤ length out.old)) }
    ensures { image_in img.now ≡ img.now
        → good (load_fault img.now 256 4096) ≡ false
        → (by : List ℕ → List ℕ → List ℕ) (enough : ℕ) → Ran by enough img.now ports.new.counts result }
{
    ports.counts = Counts::none();
    let loaded = front::load(img, nodes, values);
    let answer = loaded.answer;
    if answer.number == 0 {
        return Ok(());
    }
    ports.counts.printed = put_line(&mut ports.to, img, answer, out)?;
    Ok(())
}

// Loads an image, and where it is refused prints its line: a whole run of it, of whatever program.
pub fn refuse<R, W: Write>(ports: &mut Ports<R, W>, img: &[u8]) -> Result<(), Unprinted>
    ensures { image_in img.now ≡ img.now
        → good (load_fault img.now 256 4096) ≡ false
        → (by : List ℕ → List ℕ → List ℕ) (enough : ℕ) → Ran by enough img.now ports.new.counts result }
{
    let mut nodes = [0.0f64; 256];
    let mut values = [0.0f64; 4096];
    let mut out = [0u8; lines::LONGEST];
    refuse_in(ports, img, &mut nodes, &mut values, &mut out)
}
