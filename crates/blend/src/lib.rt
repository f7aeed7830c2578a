// What the two linears compute with: the blend of two values, and how many corners one axis more gives.
#![tactic(auto, unfolding(crate::specs::Blend::blended))]

ghost use Rattle.std.specs.Prelude.{◌≡◌};
ghost use Rattle.blend.specs.Blend.{blended};
ghost use Rattle.blend.specs.Scaffolding.{more_corners};

// The fold of the corners of a reading, and the answer that it gives.
pub mod fold;
// Two runs of values blended, for the slices of the two linears.
pub mod runs;

use rust::AxisLocation;

// Two values blended: four rounded operations in this order.
pub(crate) fn blend(a: f64, b: f64, f: f64) -> f64
    ensures { result ≡ blended a b f }
{
    a * (1.0 - f) + b * f
}

// ---- the corners of a reading

// How many corners there are with one axis more: twice as many where it is blended, at most 16.
pub fn grow(location: AxisLocation, count: usize) -> usize
    ensures { result ≡ more_corners location count }
{
    match location {
        AxisLocation::Exact(_) => count,
        AxisLocation::Between { .. } => count.min(8) * 2,
    }
}
