// The heads of the list: before each image one of 24 bytes, six little-endian numbers.

use test_runs::list;
use test_runs::list::Stop;

// How many bytes an image of the list has at most, and the output of the writer: more than an image may have.
pub(crate) const MOST_BYTES: usize = 40_000;

// How many bytes a head has.
const HEAD: usize = 24;

// How long an image is, how many places each output of the loader has, how many nodes and values are lent to the writer, and how many
// bytes its output has.
#[derive(Clone, Copy)]
pub struct Head {
    pub length: usize,
    pub nodes: usize,
    pub values: usize,
    pub lent_nodes: usize,
    pub lent_values: usize,
    pub room: usize,
}

// A number of a head.
fn number(bytes: &[u8], at: usize) -> usize {
    little_endian::word(bytes, at, 4) as usize
}

// A head, read.
fn head_of(bytes: &[u8]) -> Head {
    Head {
        length: number(bytes, 0),
        nodes: number(bytes, 4),
        values: number(bytes, 8),
        lent_nodes: number(bytes, 12),
        lent_values: number(bytes, 16),
        room: number(bytes, 20),
    }
}

// Reads the head of the next image.
pub(crate) fn read_head() -> Result<Head, Stop> {
    let mut bytes = [0u8; HEAD];
    list::read_head(&mut bytes)?;
    Ok(head_of(&bytes))
}
