// A table's shape. Where its nodes and values lie stands in specs/Layout.antt; the laws of it in proofs/: counts and totals (Totals),
// index lists and flat places (Layouts), one axis put in or left out (Removals), where each axis starts (Walks).
#![tactic(auto)]

ghost use Rattle.std.specs.Prelude.{◌≡◌};
ghost use Rattle.layout.specs.Shape.{no_shape};

// A lent shape: how many axes, and the count of nodes of each. Counts past the axes are not looked at.
#[repr(C)]
#[derive(Clone, Copy)]
pub struct Shape {
    pub axes: usize,
    pub counts: [usize; 4],
}

// The shape that a refusal gives.
pub fn no_shape() -> Shape
    ensures { result ≡ no_shape }
{
    Shape {
        axes: 0,
        counts: [0; 4],
    }
}
