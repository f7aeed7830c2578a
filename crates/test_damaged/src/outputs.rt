// The outputs of the loader and the writer: each place is marked before a call, and all places are summed after it.
ghost use Rattle.std.specs.Prelude.{◌<◌};
ghost use Rattle.test_damaged.specs.Scaffolding.{Next};

// How many places the outputs of the loader have at most.
pub(crate) const MOST_NODES: usize = 512;

pub(crate) const MOST_VALUES: usize = 4160;

// The bits of the marks at place 0, of nodes 2^52 and of values 2^53.
pub(crate) const NODES: u64 = 0x4330_0000_0000_0000;

pub(crate) const VALUES: u64 = 0x4340_0000_0000_0000;

// A prime above 2^32, so that no two halves of a word count alike.
const PRIME: u64 = 4_294_967_311;

// Marks an output of numbers, from its first mark on.
pub(crate) fn mark(output: &mut [f64], first: u64) {
    for (i, x) in output.iter_mut().enumerate() {
        *x = binary64::float_of_bits(first | i as u64);
    }
}

// Marks an output of bytes: byte p is p mod 251.
pub(crate) fn mark_bytes(output: &mut [u8]) {
    for (p, byte) in output.iter_mut().enumerate() {
        *byte = (p % 251) as u8;
    }
}

// A sum with one number more.
fn with(sum: u64, number: u64) -> u64
    requires { Next sum number }
    ensures { result < 4294967311 }
{
    (sum * 1_000_003 + number) % PRIME
}

// A sum with both halves of a word, the lower first.
fn with_word(sum: u64, word: u64) -> u64
    requires { sum < 4294967311 }
    ensures { result < 4294967311 }
{
    let lower = with(sum, word % 0x1_0000_0000);
    with(lower, word / 0x1_0000_0000)
}

// The sum over the bits of an output of numbers.
pub(crate) fn sum(output: &[f64]) -> u64 {
    let mut sum: u64 = 0;
    for x in output {
        sum = with_word(sum, binary64::bits_of_float(*x));
    }
    sum
}

// The sum over an output of bytes.
pub(crate) fn sum_bytes(output: &[u8]) -> u64 {
    let mut sum: u64 = 0;
    for byte in output {
        sum = with(sum, u64::from(*byte));
    }
    sum
}
