// The records of the list: a header of 32 bytes, little-endian, and what some have after it.
ghost use Rattle.std.specs.Prelude.{◌≤◌, ◌<◌, length};

use test_runs::list;
use test_runs::list::Stop;

// How many floats are read at once.
const BLOCK: usize = 128;

// What a record lends or calls, by its first byte: 0 to 16, in this order.
#[derive(Clone, Copy, PartialEq, Eq)]
pub enum Op {
    LendAxis,
    LowerIndex,
    ExactIndex,
    Location,
    StepIndex,
    UniformIndex,
    Grid,
    GridByDefault,
    LendTable,
    Nearest,
    Step,
    Linear,
    LinearUniform,
    SliceNearest,
    SliceStep,
    SliceLinear,
    SliceLinearUniform,
}

impl TryFrom<u8> for Op {
    type Error = Stop;

    fn try_from(byte: u8) -> Result<Op, Stop> {
        match byte {
            0 => Ok(Op::LendAxis),
            1 => Ok(Op::LowerIndex),
            2 => Ok(Op::ExactIndex),
            3 => Ok(Op::Location),
            4 => Ok(Op::StepIndex),
            5 => Ok(Op::UniformIndex),
            6 => Ok(Op::Grid),
            7 => Ok(Op::GridByDefault),
            8 => Ok(Op::LendTable),
            9 => Ok(Op::Nearest),
            10 => Ok(Op::Step),
            11 => Ok(Op::Linear),
            12 => Ok(Op::LinearUniform),
            13 => Ok(Op::SliceNearest),
            14 => Ok(Op::SliceStep),
            15 => Ok(Op::SliceLinear),
            16 => Ok(Op::SliceLinearUniform),
            _ => Err(Stop::BadList),
        }
    }
}

// A record's header; its op says which fields it has, and what the words hold.
#[derive(Clone, Copy)]
pub struct Header {
    pub op: Op,
    pub a: u8,
    pub b: u8,
    pub reading: f64,
    pub second: u64,
    pub third: u64,
}

pub(crate) fn lower_half(word: u64) -> usize
    ensures { result < 4294967296 }
{
    (word % 0x1_0000_0000) as usize
}

pub(crate) fn upper_half(word: u64) -> usize
    ensures { result < 4294967296 }
{
    (word / 0x1_0000_0000) as usize
}

// The four quarters of a word, the lowest first.
pub(crate) fn quarters_of(word: u64) -> [usize; 4] {
    [
        (word % 0x1_0000) as usize,
        (word / 0x1_0000 % 0x1_0000) as usize,
        (word / 0x1_0000_0000 % 0x1_0000) as usize,
        (word / 0x1_0000_0000_0000) as usize,
    ]
}

// Reads the next record's header, which has at most eight directions.
pub(crate) fn read_header() -> Result<Header, Stop> {
    let mut bytes = [0u8; 32];
    list::read_head(&mut bytes)?;
    if bytes[2] > 8 {
        return Err(Stop::BadList);
    }
    Ok(Header {
        op: Op::try_from(bytes[0])?,
        a: bytes[1],
        b: bytes[2],
        reading: little_endian::float(&bytes, 8),
        second: little_endian::word(&bytes, 16, 8),
        third: little_endian::word(&bytes, 24, 8),
    })
}

// Reads so many floats, a block at most.
fn read_block(into: &mut [f64]) -> Result<(), Stop>
    requires { length into.old ≤ 128 }
{
    let mut space = [0u8; 8 * BLOCK];
    let bytes = &mut space[..8 * into.len()];
    list::read_rest(bytes)?;
    for (x, place) in into.iter_mut().zip(bytes.chunks_exact(8)) {
        *x = little_endian::float(place, 0);
    }
    Ok(())
}

// Fills `into` with floats of the list.
pub(crate) fn read_floats(into: &mut [f64]) -> Result<(), Stop> {
    for block in into.chunks_mut(BLOCK) {
        read_block(block)?;
    }
    Ok(())
}
