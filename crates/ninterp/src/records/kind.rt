// The kind of a record, by its first byte.
ghost use Rattle.ninterp.specs.Kinds.{Decodes};

use answer::{Refusal, Row};

// By which rule a record is looked up.
#[derive(Clone, Copy, PartialEq, Eq)]
pub enum Kind {
    // 0
    Linear,
    // 1
    LinearUniform,
    // 2
    Nearest,
    // 3: Step, all lower
    StepLower,
    // 4: Step, all upper
    StepUpper,
}

// The kind of a byte; 9 of an unknown one.
impl TryFrom<u8> for Kind {
    type Error = Refusal;

    ghost try_from_gives = { Decodes };

    fn try_from(byte: u8) -> Result<Kind, Refusal> {
        match byte {
            0 => Ok(Kind::Linear),
            1 => Ok(Kind::LinearUniform),
            2 => Ok(Kind::Nearest),
            3 => Ok(Kind::StepLower),
            4 => Ok(Kind::StepUpper),
            _ => Err(Row::Direction.at(0, 0)),
        }
    }
}
