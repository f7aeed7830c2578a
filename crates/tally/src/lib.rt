// The coverage tally: how many records of a file were read, how many accepted ones fell into each cell of each axis, and how many were
// refused by each number. Here a record is what became of it; what becomes of it is worked out by `ninterp::records`.
#![tactic(auto, using(answer::proofs::Checks::then_goes_on), unfolding(crate::specs::Tally::more, crate::specs::Tally::more_at, crate::specs::Tally::cell_more, crate::specs::Tally::number_more, crate::specs::Tally::counted_of, crate::specs::Counts::none_read))]

ghost use Rattle.std.specs.Prelude.{◌≡◌, ◌<◌, take};
ghost use Rattle.answer.specs.Answer.{fine, ◌then◌};
ghost use Rattle.checks.specs.Numbers.{limit_fault};
ghost use Rattle.tally.specs.Tally.{cell_more, cells_more, number_more, counted_of};
ghost use Rattle.tally.specs.Counts.{none_read};
ghost use Rattle.tally.specs.Scaffolding.{tally_of};

use answer::Answer;
use checks::lent;

// The count of cell i of axis a stands at a * 63 + i, that of the refusal number k at k.
#[repr(C)]
#[derive(Clone, Copy)]
pub struct Tally {
    pub records: u32,
    pub cells: [u32; 252],
    pub numbers: [u32; 21],
}

// What became of a record: its number, and where that is 0 the cell on each of so many axes.
#[derive(Clone, Copy)]
pub struct Outcome {
    pub number: u32,
    pub axes: usize,
    pub cells: [usize; 4],
}

// What a counting call answers, and the tally after it.
#[derive(Clone, Copy)]
pub struct TallyAnswer {
    pub answer: Answer,
    pub tally: Tally,
}

// ---- where the counts stand

fn count_cell(cells: &mut [u32; 252], axis: usize, cell: usize)
    requires { axis < 4 }
    ensures { cells.new ≡ cell_more cells.old axis cell }
{
    if cell < 63 {
        let at = axis * 63 + cell;
        cells[at] = cells[at].saturating_add(1);
    }
}

fn count_cells(cells: &mut [u32; 252], axes: usize, found: [usize; 4])
    ensures { cells.new ≡ cells_more cells.old 0 (take axes found) }
{
    let found = &found[..axes.min(4)];
    for (a, cell) in found.iter().enumerate() {
        count_cell(cells, a, *cell);
    }
}

fn count_number(numbers: &mut [u32; 21], number: u32)
    ensures { numbers.new ≡ number_more numbers.old number }
{
    if number < 21 {
        let at = number as usize;
        numbers[at] = numbers[at].saturating_add(1);
    }
}

// Counts a record in a tally whose parts are lent, and gives how many were read then: nothing is copied. Past the limit it counts nothing.
pub fn count_here(cells: &mut [u32; 252], numbers: &mut [u32; 21], records: u32, o: Outcome) -> u32
    ensures { tally_of result cells.new numbers.new
        ≡ (counted_of (tally_of records cells.old numbers.old) o).tally }
{
    if lent::limit_fault(records).is_err() {
        return records;
    }
    if o.number == 0 {
        count_cells(cells, o.axes, o.cells);
        return records + 1;
    }
    count_number(numbers, o.number);
    records + 1
}

// ---- by value

// A tally to begin with: no record was read.
pub fn none_read() -> Tally
    ensures { result ≡ none_read }
{
    Tally {
        records: 0,
        cells: [0; 252],
        numbers: [0; 21],
    }
}

// What counting a record answers, where so many were read already.
pub fn limit_answer(read: u32) -> Answer
    ensures { result ≡ (limit_fault read then fine) }
{
    match lent::limit_fault(read) {
        Ok(()) => answer::pass(),
        Err(refusal) => Answer::from(refusal),
    }
}

// Counts a record, and gives the tally after it.
pub fn counted(t: Tally, o: Outcome) -> TallyAnswer
    ensures { result ≡ counted_of t o }
{
    let answer = limit_answer(t.records);
    let mut cells = t.cells;
    let mut numbers = t.numbers;
    let records = count_here(&mut cells, &mut numbers, t.records, o);
    let tally = Tally {
        records,
        cells,
        numbers,
    };
    TallyAnswer { answer, tally }
}
