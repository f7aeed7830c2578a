// The coverage report of a table's axes and a tally, put at the front of a buffer.
#![tactic(auto, using(crate::proofs::Reports::reports))]

ghost use Rattle.std.specs.Prelude.{◌≡◌, ◌+◌, ◌<◌, ◌≤◌, length, take, get_or};
ghost use Rattle.lines.specs.Report.{cell_line, joined, cell_lines, number_lines, held, cell_at};
ghost use Rattle.lines.specs.Report.{tally_report, report_into, report_end};
ghost use Rattle.lines.specs.Scaffolding.{Wrote};

use crate::text;
use answer::{Answer, Row};

// No report has more bytes.
pub const MOST: usize = 8192;

// The n cells of an axis.
fn put_cells(axis: usize, n: usize, cells: &[u32; 252], out: &mut [u8], at: usize) -> usize
    requires { (axis < 4) × ((n ≤ 63) × (at + 1323 ≤ length out.old)) }
    ensures wrote { Wrote out.old at (joined n (λ i. cell_line axis i (cell_at cells.now axis i))) out.new result }
    ensures upper_bound { result ≤ at + 1323 }
{
    let mut next = at;
    let from = axis * 63;
    for (i, count) in cells[from..from + n].iter().enumerate() {
        let numbers = [i as u64, u64::from(*count)];
        next = text::put_fields(b"cell ", axis as u64, &numbers, out, next);
    }
    next
}

// The cells of each axis: four at most are looked at, and an axis of n nodes has n - 1 cells, 63 at most.
fn put_axes(axes: usize, counts: [usize; 4], cells: &[u32; 252], out: &mut [u8]) -> usize
    requires { 5292 ≤ length out.old }
    ensures wrote { Wrote out.old 0 (cell_lines (held (take axes counts)) (cell_at cells.now)) out.new result }
    ensures upper_bound { result ≤ 5292 }
{
    let mut next: usize = 0;
    for (a, &nodes) in counts.iter().take(axes).enumerate() {
        let n = nodes.min(64).saturating_sub(1);
        next = put_cells(a, n, cells, out, next);
    }
    next
}

// The numbers from 1 on that were met.
fn put_numbers(numbers: &[u32; 21], out: &mut [u8], at: usize) -> usize
    requires { at + 340 ≤ length out.old }
    ensures wrote { Wrote out.old at (number_lines (λ k. get_or numbers.now k 0)) out.new result }
    ensures upper_bound { result ≤ at + 340 }
{
    let mut next = at;
    for (k, count) in numbers[1..].iter().enumerate() {
        if *count != 0 {
            let met = [u64::from(*count)];
            next = text::put_fields(b"no ", k as u64 + 1, &met, out, next);
        }
    }
    next
}

// Puts the report at the front of a buffer that has room for any, else nothing, and gives how many bytes it wrote. The count of
// cell i of axis a stands at a * 63 + i, that of number k at k. Axes past four are not looked at, and a count above 64 is read as 64.
pub fn put(
    axes: usize,
    counts: [usize; 4],
    cells: &[u32; 252],
    numbers: &[u32; 21],
    past: bool,
    out: &mut [u8],
) -> usize
    ensures value { (result ≡ report_end (tally_report axes counts cells.now numbers.now past) out.old)
        × (out.new
        ≡ report_into (tally_report axes counts cells.now numbers.now past) out.old) }
    ensures upper_bound { result ≤ length out.old }
{
    if out.len() < MOST {
        return 0;
    }
    let a = put_axes(axes, counts, cells, out);
    let b = put_numbers(numbers, out, a);
    if past {
        crate::put_line(Answer::from(Row::Limit.at(0, 0)), out, b)
    } else {
        b
    }
}
