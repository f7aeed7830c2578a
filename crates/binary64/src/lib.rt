// Numbers as IEEE 754 binary64 has them: a test for finite ones, and their bits, both ways, for every input.
// The laws of their order, differences and quotients are in proofs/.
#![tactic(auto, using(crate::proofs::Finite::test_is))]

ghost use Rattle.std.specs.Prelude.{◌≡◌};
ghost use Rattle.std.specs.Float.{binary64};
ghost use Rattle.std.specs.Float.Ieee.{of_bits, to_bits};
ghost use Rattle.std.specs.Float.Ieee.Scale.{finite};

use std::num;

// Whether x is neither a NaN nor an infinity.
pub fn is_finite(x: f64) -> bool
    ensures { result ≡ finite x }
{
    x.is_finite()
}

// The number that a pattern of bits stands for, a NaN at each pattern of a NaN.
pub fn float_of_bits(bits: u64) -> f64
    ensures { result ≡ of_bits binary64 bits }
{
    num::f64_from_bits_with_nan(bits)
}

// The bits of a number, one pattern for every NaN.
pub fn bits_of_float(x: f64) -> u64
    ensures { result ≡ to_bits binary64 x }
{
    num::f64_to_bits_with_nan(x)
}
