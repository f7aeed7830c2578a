// Records counted in a tally: one record, a block of them, for which the table is judged once, and what is left at the input's end.
ghost use Rattle.std.specs.Prelude.{◌≡◌, cond, ltb, length};
ghost use Rattle.layout.specs.Layout.{tabulate};
ghost use Rattle.tally.specs.Tally.{counted_of};
ghost use Rattle.tally.specs.Scaffolding.{tally_of};
ghost use Rattle.ninterp.specs.Records.{record_size, record_answer};
ghost use Rattle.ninterp.specs.Coverage.{record_cell};
ghost use Rattle.ninterp.specs.Counting.{outcome_of, counted_record, block_tally, counted_rest};
ghost use Rattle.ninterp.specs.Scaffolding.{FlatTable, Known};

use crate::records;
use answer::{Answer, Refusal};
use axis::cells;
use checks::{lent, table};
use layout::Shape;
use tally::{Outcome, Tally, TallyAnswer};

// The tally after the records of a block that were counted, and how many bytes they have.
#[derive(Clone, Copy)]
pub struct BlockTally {
    pub tally: Tally,
    pub used: usize,
}

// The cell of a record's reading on each axis, 0 past the axes. Each reading is read where it is wanted: all four in an array would be
// stored and waited for.
fn cells_of(shape: Shape, nodes: &[f64], rec: &[u8]) -> [usize; 4]
    requires { FlatTable shape nodes.now }
    ensures { result ≡ tabulate 4 (λ a. cond (ltb a shape.axes) (record_cell shape nodes.now a rec.now) 0) }
{
    let mut found = [0usize; 4];
    let mut at: usize = 0;
    for a in 0..shape.axes {
        let end = at + shape.counts[a];
        let reading = little_endian::float(rec, 1 + 8 * a);
        found[a] = cells::lower_index(&nodes[at..end], reading);
        at = end;
    }
    found
}

// What became of a record that is answered so.
fn outcome(number: u32, shape: Shape, nodes: &[f64], values: &[f64], rec: &[u8]) -> Outcome
    requires { number ≡ (record_answer shape nodes.now values.now rec.now).number }
    ensures { result ≡ outcome_of shape nodes.now values.now rec.now }
{
    if number != 0 {
        return Outcome {
            number,
            axes: 0,
            cells: [0; 4],
        };
    }
    let cells = cells_of(shape, nodes, rec);
    Outcome {
        number: 0,
        axes: shape.axes,
        cells,
    }
}

// Counts a record, in a table that is judged for it alone, and gives the tally after it.
pub fn counted_record(
    t: Tally,
    shape: Shape,
    nodes: &[f64],
    values: &[f64],
    rec: &[u8],
) -> TallyAnswer
    ensures { result ≡ counted_record t shape nodes.now values.now rec.now }
{
    let a = records::record_answer(shape, nodes, values, rec);
    let o = outcome(a.number, shape, nodes, values, rec);
    tally::counted(t, o)
}

// The same where the tally stands: nothing of it is copied.
pub fn count_record(
    t: &mut Tally,
    shape: Shape,
    nodes: &[f64],
    values: &[f64],
    rec: &[u8],
) -> Answer
    ensures value { result ≡ (counted_record t.old shape nodes.now values.now rec.now).answer }
    ensures tally_after { t.new ≡ (counted_record t.old shape nodes.now values.now rec.now).tally }
{
    let a = records::record_answer(shape, nodes, values, rec);
    let o = outcome(a.number, shape, nodes, values, rec);
    let read = t.records;
    let answer = tally::limit_answer(read);
    t.records = tally::count_here(&mut t.cells, &mut t.numbers, read, o);
    answer
}

// ---- a block

// Counts a record of the right length where the counts stand, and gives how many were read then.
fn count_next(
    shape: Shape,
    nodes: &[f64],
    values: &[f64],
    table: Result<(), Refusal>,
    uniform: Result<(), Refusal>,
    rec: &[u8],
    cells: &mut [u32; 252],
    numbers: &mut [u32; 21],
    read: u32,
) -> u32
    requires known { Known shape nodes.now values.now table uniform }
    requires rec_len { length rec.now ≡ record_size shape }
    ensures { tally_of result cells.new numbers.new
        ≡ (counted_of (tally_of read cells.old numbers.old)
        (outcome_of shape nodes.now values.now rec.now)).tally }
{
    let a = records::whole_answer(shape, nodes, values, table, uniform, rec);
    let o = outcome(a.number, shape, nodes, values, rec);
    tally::count_here(cells, numbers, read, o)
}

// The whole records of a table of which it is known what 1 to 7 and 8 give. The counts are copied in and out once for all of them.
fn count_records(
    t: Tally,
    shape: Shape,
    nodes: &[f64],
    values: &[f64],
    table: Result<(), Refusal>,
    uniform: Result<(), Refusal>,
    size: usize,
    records: &[u8],
) -> BlockTally
    requires known { Known shape nodes.now values.now table uniform }
    requires size_value { size ≡ record_size shape }
    ensures { result ≡ block_tally t shape nodes.now values.now records.now }
{
    let mut cells = t.cells;
    let mut numbers = t.numbers;
    let mut read = t.records;
    let mut used: usize = 0;
    let most = lent::MOST_RECORDS.saturating_sub(read) as usize;
    for rec in records.chunks_exact(size).take(most) {
        read = count_next(
            shape,
            nodes,
            values,
            table,
            uniform,
            rec,
            &mut cells,
            &mut numbers,
            read,
        );
        used += size;
    }
    let tally = Tally {
        records: read,
        cells,
        numbers,
    };
    BlockTally { tally, used }
}

// Counts the whole records of a block in order, as many as may still come, and gives the tally after them.
pub fn count_block(
    t: Tally,
    shape: Shape,
    nodes: &[f64],
    values: &[f64],
    records: &[u8],
) -> BlockTally
    ensures { result ≡ block_tally t shape nodes.now values.now records.now }
{
    if !records::is_whole(shape, records.len()) {
        return BlockTally { tally: t, used: 0 };
    }
    let table = records::whole_table_fault(shape, nodes, values);
    let uniform = table::axes_uniform_fault(shape, nodes);
    count_records(
        t,
        shape,
        nodes,
        values,
        table,
        uniform,
        1 + 8 * shape.axes,
        records,
    )
}

// ---- the input's end

// Counts what is left of an input, if anything, as one record more, and gives the tally after it.
pub fn counted_rest(
    t: Tally,
    shape: Shape,
    nodes: &[f64],
    values: &[f64],
    rest: &[u8],
) -> TallyAnswer
    ensures { result ≡ counted_rest t shape nodes.now values.now rest.now }
{
    if rest.is_empty() {
        let answer = answer::pass();
        return TallyAnswer { answer, tally: t };
    }
    counted_record(t, shape, nodes, values, rest)
}
