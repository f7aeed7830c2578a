// The fold of a reading's corners: axis after axis, in place, and the answer that its value gives.
ghost use Rattle.std.specs.Prelude.{◌≡◌, ◌+◌, ◌^◌, ◌≤◌, length, take};
ghost use Rattle.blend.specs.Blend.{computed};
ghost use Rattle.rust.specs.Scaffolding.{diffs, butterfly};
ghost use Rattle.blend.specs.Scaffolding.{passed_over, merged, half_of, grown};

use answer::Answer;
use checks::numbers;
use rust::AxisLocation;

// One pass: each of the first `half` values blended with the one `half` places on.
fn pass_over(vals: &mut [f64], half: usize, f: f64)
    requires { half + half ≤ length vals.old }
    ensures { vals.new ≡ passed_over f half vals.old }
{
    let (low, high) = vals.split_at_mut(half);
    for (i, a) in low.iter_mut().enumerate() {
        *a = crate::blend(*a, high[i], f);
    }
}

// The corners after one axis, of which `half` are left: an exact axis has fixed them already.
fn merge(location: AxisLocation, vals: &mut [f64], half: usize)
    requires { grown location half ≤ length vals.old }
    ensures { vals.new ≡ merged location half vals.old }
{
    let AxisLocation::Between { frac, .. } = location else {
        return;
    };
    pass_over(vals, half, frac);
}

// How many corners one axis leaves.
fn half_of(location: AxisLocation, count: usize) -> usize
    ensures { result ≡ half_of location count }
{
    match location {
        AxisLocation::Exact(_) => count,
        AxisLocation::Between { .. } => count / 2,
    }
}

// How many corners some axes have, of which there are at most four.
fn corner_count(locations: &[AxisLocation]) -> usize
    requires { length locations.now ≤ 4 }
    ensures { result ≡ 2 ^ length (diffs locations.now) }
{
    let mut count: usize = 1;
    for location in locations {
        count = crate::grow(*location, count);
    }
    count
}

// The corners' values blended, axis after axis, the first one first.
fn fold(vals: &mut [f64; 16], locations: &[AxisLocation; 4], n: usize) -> f64
    ensures { result ≡ butterfly (diffs (take n locations.now)) vals.old }
{
    let axes = &locations[..n.min(4)];
    let mut half = corner_count(axes);
    for location in axes {
        half = half_of(*location, half);
        merge(*location, vals, half);
    }
    vals[0]
}

// The fold's value, or 12; the corners are blended where they stand, since a copy of them would wait for what was stored last.
pub fn fold_in(vals: &mut [f64; 16], locations: &[AxisLocation; 4], n: usize) -> Answer
    ensures { result ≡ computed (butterfly (diffs (take n locations.now)) vals.old) }
{
    let value = fold(vals, locations, n);
    match numbers::result_fault(0, value) {
        Ok(()) => Answer::from(value),
        Err(refusal) => Answer::from(refusal),
    }
}

// The same of corners of its own.
pub fn fold_answer(mut vals: [f64; 16], locations: [AxisLocation; 4], n: usize) -> Answer
    ensures { result ≡ computed (butterfly (diffs (take n locations)) vals) }
{
    fold_in(&mut vals, &locations, n)
}
