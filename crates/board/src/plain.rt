// What C has no enum for, as plain numbers: the answers of `exact_index` and `locate_axis`, and a tolerance that is lent or not.
ghost use Rattle.std.specs.Prelude.{◌≡◌};
ghost use Rattle.board.specs.Plain.{plain_exact, plain_location, tolerance_by};

use answer::Answer;
use rust::AxisLocation;
use utils::{AxisAnswer, ExactAnswer};

// What `exact_index` answers: found is 1 where a node equals the reading and index is that node; else both are 0.
#[repr(C)]
#[derive(Clone, Copy)]
pub struct PlainExact {
    pub answer: Answer,
    pub found: u32,
    pub index: usize,
}

// What `locate_axis` answers: between is 0 on the node index, 1 at a fraction of the cell whose lower node is index.
#[repr(C)]
#[derive(Clone, Copy)]
pub struct PlainLocation {
    pub answer: Answer,
    pub between: u32,
    pub index: usize,
    pub fraction: f64,
}

// An index or none, as plain numbers.
impl From<ExactAnswer> for PlainExact {
    ghost from_gives = { λ a r. r ≡ plain_exact a };

    fn from(exact: ExactAnswer) -> PlainExact {
        let answer = exact.answer;
        match exact.index {
            Some(index) => PlainExact {
                answer,
                found: 1,
                index,
            },
            None => PlainExact {
                answer,
                found: 0,
                index: 0,
            },
        }
    }
}

// A location, as plain numbers.
impl From<AxisAnswer> for PlainLocation {
    ghost from_gives = { λ a r. r ≡ plain_location a };

    fn from(located: AxisAnswer) -> PlainLocation {
        let answer = located.answer;
        match located.location {
            AxisLocation::Exact(node) => PlainLocation {
                answer,
                between: 0,
                index: node,
                fraction: 0.0,
            },
            AxisLocation::Between { lower, frac } => PlainLocation {
                answer,
                between: 1,
                index: lower,
                fraction: frac,
            },
        }
    }
}

// The tolerance that is lent, or the default one where lent is 0.
pub(crate) fn tolerance_by(lent: u32, tolerance: f64) -> Option<f64>
    ensures { result ≡ tolerance_by lent tolerance }
{
    if lent == 0 { None } else { Some(tolerance) }
}
