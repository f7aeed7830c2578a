// The rows of the table of numbers that judge what is lent, one function each: a length, a direction, room, a tally.
#![tactic(auto, unfolding(crate::specs::Numbers::length_fault, crate::specs::Numbers::direction_fault, crate::specs::Numbers::room_fault, crate::specs::Numbers::limit_fault))]

ghost use Rattle.std.specs.Prelude.{◌≡◌};
ghost use Rattle.answer.specs.Rows.{said};
ghost use Rattle.checks.specs.Numbers.{length_fault, direction_fault, room_fault, limit_fault};

use answer::{Refusal, Row};

// 3: a lent length that differs from what the shape says.
pub fn length_fault(place: usize, wanted: usize, lent: usize) -> Result<(), Refusal>
    ensures { said result ≡ length_fault place wanted lent }
{
    Row::Length.refuse_if(lent != wanted, 0, place)
}

// 9: a direction other than 0 lower, 1 upper.
pub fn direction_fault(axis: usize, direction: u8) -> Result<(), Refusal>
    ensures { said result ≡ direction_fault axis direction }
{
    Row::Direction.refuse_if(direction > 1, axis, 0)
}

// 15: an output too short.
pub fn room_fault(place: usize, wanted: usize, room: usize) -> Result<(), Refusal>
    ensures { said result ≡ room_fault place wanted room }
{
    Row::Room.refuse_if(room < wanted, 0, place)
}

// So many records are read.
pub const MOST_RECORDS: u32 = 1000000;

// 17: so many were read already.
pub fn limit_fault(read: u32) -> Result<(), Refusal>
    ensures { said result ≡ limit_fault read }
{
    Row::Limit.refuse_if(read >= MOST_RECORDS, 0, 0)
}
