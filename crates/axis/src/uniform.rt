// The index of a reading on a uniform axis, for every input.
#![tactic(auto, unfolding(crate::specs::Uniform::uniform_cell, crate::specs::Uniform::uniform_index))]

ghost use Rattle.std.specs.Prelude.{◌≡◌};
ghost use Rattle.axis.specs.Uniform.{uniform_cell, uniform_index};

// The cell of t on a uniform axis: its whole part, at most the last cell; 0 where t is below 0, 2^64 or more or no number, and where there
// is no cell.
fn uniform_cell(n: usize, t: f64) -> usize
    ensures { result ≡ uniform_cell n t }
{
    if t < 0.0 {
        0
    } else if t < 18446744073709551616.0 {
        let whole = std::num::truncating_f64_to_u64(t) as usize;
        whole.min(n.saturating_sub(2))
    } else {
        0
    }
}

// The index by the first node and the step.
pub fn uniform_index(first: f64, step: f64, n: usize, point: f64) -> usize
    ensures { result ≡ uniform_index first step n point }
{
    uniform_cell(n, (point - first) / step)
}
