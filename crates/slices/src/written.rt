// Writing the values of a slice: runs that lie apart, or two neighbouring runs blended.
ghost use Rattle.std.specs.Prelude.{◌≡◌, ◌++◌, ◌/◌, length, drop};
ghost use Rattle.answer.specs.Rows.{said};
ghost use Rattle.slices.specs.Scaffolding.{Results, Runs, Neighbours, run_values, blended_runs};

use answer::Refusal;
use blend::runs;

// Writes the values at node i of the last axis, which has n nodes: of every n values, value i.
fn fill_last(values: &[f64], n: usize, i: usize, out: &mut [f64])
    requires { Runs values.now n 1 i (length out.old) }
    ensures { out.new ≡ run_values values.now n 1 i (length values.now / n) ++ drop (length values.now / n) out.old }
{
    for (k, all) in values.chunks_exact(n).enumerate() {
        out[k] = all[i];
    }
}

// Copies a run value by value: a board links no `memmove`.
fn copy_run(run: &[f64], to: &mut [f64])
    requires { length run.now ≡ length to.old }
    ensures { to.new ≡ run.now }
{
    for (j, x) in run.iter().enumerate() {
        to[j] = *x;
    }
}

// The same of any axis, where the axes after it have `inner` values: of every n runs of so many values, run i.
fn fill_runs(values: &[f64], n: usize, inner: usize, i: usize, out: &mut [f64])
    requires { Runs values.now n inner i (length out.old) }
    ensures { out.new ≡ run_values values.now n inner i (length values.now / n) ++ drop (length values.now / n) out.old }
{
    let from = i * inner;
    for (k, all) in values.chunks_exact(n * inner).enumerate() {
        let to = k * inner;
        copy_run(&all[from..from + inner], &mut out[to..to + inner]);
    }
}

// The same: a run of one value is not worth a call that copies it.
pub(crate) fn fill(values: &[f64], n: usize, inner: usize, i: usize, out: &mut [f64])
    requires { Runs values.now n inner i (length out.old) }
    ensures { out.new ≡ run_values values.now n inner i (length values.now / n) ++ drop (length values.now / n) out.old }
{
    if inner == 1 {
        fill_last(values, n, i, out);
    } else {
        fill_runs(values, n, inner, i, out);
    }
}

// Two neighbouring runs of `rest` values blended: 12, or written.
pub(crate) fn blend_runs(
    values: &[f64],
    rest: usize,
    lower: usize,
    frac: f64,
    out: &mut [f64],
) -> Result<(), Refusal>
    requires { Neighbours values.now lower rest (length out.old) }
    ensures { Results (blended_runs frac lower rest values.now) out.old (said result) out.new }
{
    let start = lower * rest;
    let (low, high) = values[start..start + 2 * rest].split_at(rest);
    runs::blend_fault(low, high, frac)?;
    runs::blend_into(low, high, frac, out);
    Ok(())
}
