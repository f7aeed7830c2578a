// Two runs of values blended, place by place: what a slice of the two linears writes, and 12 of it.
ghost use Rattle.std.specs.Prelude.{◌≡◌};
ghost use Rattle.answer.specs.Rows.{said};
ghost use Rattle.blend.specs.Scaffolding.{blends, blended_into};
ghost use Rattle.checks.specs.Numbers.{results_fault};

use answer::Refusal;
use checks::numbers;

// 12 of the first blend of two runs that is not finite.
pub fn blend_fault(low: &[f64], high: &[f64], f: f64) -> Result<(), Refusal>
    ensures { said result ≡ results_fault (blends f low.now high.now) }
{
    let count = low.len().min(high.len());
    for i in 0..count {
        numbers::result_fault(i, crate::blend(low[i], high[i], f))?;
    }
    Ok(())
}

// Writes the blends of two runs, as many as there is room for.
pub fn blend_into(low: &[f64], high: &[f64], f: f64, out: &mut [f64])
    ensures { out.new ≡ blended_into f low.now high.now out.old }
{
    let count = low.len().min(high.len()).min(out.len());
    for (i, x) in out[..count].iter_mut().enumerate() {
        *x = crate::blend(low[i], high[i], f);
    }
}
