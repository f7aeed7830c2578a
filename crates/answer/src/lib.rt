// What judges gives a refusal, or passes. The answer that all calls share is made of a refusal or of a value, here and nowhere else.
#![tactic(auto, unfolding(crate::specs::Rows::said, crate::specs::Rows::fault_of, crate::specs::Answer::answered))]

ghost use Rattle.std.specs.Prelude.{◌≡◌};
ghost use Rattle.answer.specs.Rows.{number_of, fault_of, said};
ghost use Rattle.answer.specs.Faults.{refusal, when};
ghost use Rattle.answer.specs.Answer.{refused, answered, fine};

use std::convert::From;

// The table of numbers, row by row: what can be wrong.
#[derive(Clone, Copy, PartialEq, Eq)]
pub enum Row {
    // 1: axes not 1 to 4
    Axes,
    // 2: a count outside 2 to 64
    Count,
    // 3: a lent length differs
    Length,
    // 4: node not finite
    Node,
    // 5: node not above the one before
    Rise,
    // 6: difference of neighbours not finite
    Difference,
    // 7: value not finite
    Value,
    // 8: axis not uniform
    Uniform,
    // 9: a direction other than lower and upper
    Direction,
    // 10: reading NaN or infinite
    Reading,
    // 11: reading outside its axis
    Range,
    // 12: computed result not finite
    Computed,
    // 13: image header wrong
    Header,
    // 14: an area off its place
    Area,
    // 15: an output too short
    Room,
    // 16: a slice on no such axis
    Slice,
    // 17: as many records as a tally takes
    Limit,
    // 18: two areas share a byte
    Overlap,
}

impl Row {
    // The number that the technician sees.
    pub fn number(self) -> u32
        ensures { result ≡ number_of self }
    {
        match self {
            Row::Axes => 1,
            Row::Count => 2,
            Row::Length => 3,
            Row::Node => 4,
            Row::Rise => 5,
            Row::Difference => 6,
            Row::Value => 7,
            Row::Uniform => 8,
            Row::Direction => 9,
            Row::Reading => 10,
            Row::Range => 11,
            Row::Computed => 12,
            Row::Header => 13,
            Row::Area => 14,
            Row::Room => 15,
            Row::Slice => 16,
            Row::Limit => 17,
            Row::Overlap => 18,
        }
    }

    // The row, met at an axis and a place.
    pub fn at(self, axis: usize, place: usize) -> Refusal
        ensures { fault_of result ≡ refusal (number_of self) axis place }
    {
        Refusal {
            row: self,
            axis,
            place,
        }
    }

    // The check of the row: refused exactly where its condition is met.
    pub fn refuse_if(self, met: bool, axis: usize, place: usize) -> Result<(), Refusal>
        ensures { said result ≡ when met (refusal (number_of self) axis place) }
    {
        if met {
            Err(self.at(axis, place))
        } else {
            Ok(())
        }
    }
}

// What is wrong, and where: the row of the table of numbers that is met, with its axis and place.
#[derive(Clone, Copy)]
pub struct Refusal {
    pub row: Row,
    pub axis: usize,
    pub place: usize,
}

// What a technician sees: a refusal's number, axis and place, or 0, 0, 0; and a value.
#[repr(C)]
#[derive(Clone, Copy)]
pub struct Answer {
    pub number: u32,
    pub axis: usize,
    pub place: usize,
    pub value: f64,
}

// The answer of a refusal: its number, axis and place, and the value +0.0.
impl From<Refusal> for Answer {
    ghost from_gives = { λ r a. a ≡ refused (fault_of r) };

    fn from(refusal: Refusal) -> Answer {
        Answer {
            number: refusal.row.number(),
            axis: refusal.axis,
            place: refusal.place,
            value: 0.0,
        }
    }
}

// The answer of a value: 0, 0, 0 and the value.
impl From<f64> for Answer {
    ghost from_gives = { λ x a. a ≡ answered x };

    fn from(value: f64) -> Answer {
        Answer {
            number: 0,
            axis: 0,
            place: 0,
            value,
        }
    }
}

// The success of a call that gives no value.
pub fn pass() -> Answer
    ensures { result ≡ fine }
{
    Answer::from(0.0)
}
