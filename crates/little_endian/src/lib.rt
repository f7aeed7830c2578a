// Numbers as little-endian bytes, for every place and width: bytes that are not there are not looked at.
#![tactic(auto, using(crate::proofs::Bytes::reads), unfolding(crate::specs::Words::float_at))]

ghost use Rattle.std.specs.Prelude.{◌≡◌, ◌+◌, ◌^◌, ◌<◌, ◌≤◌, min, length};
ghost use Rattle.little_endian.specs.Words.{of_bytes, word_at, float_at};

// The number of a few bytes, the highest read first.
fn word_of(bytes: &[u8]) -> u64
    requires { length bytes.now ≤ 8 }
    ensures { (result ≡ of_bytes bytes.now) × (result < 256 ^ length bytes.now) }
{
    let mut x: u64 = 0;
    for b in bytes.iter().rev() {
        x = x * 256 + u64::from(*b);
    }
    x
}

// The number of n bytes at a place, the lowest first; of a longer word the first eight.
pub fn word(s: &[u8], at: usize, n: usize) -> u64
    ensures { (result ≡ word_at (min n 8) s.now at) × (result < 256 ^ min n 8) }
{
    if at >= s.len() {
        return 0;
    }
    let there = n.min(8).min(s.len() - at);
    word_of(&s[at..at + there])
}

// Eight bytes that are there: the compiler reads them by one load.
fn eight(s: &[u8], at: usize) -> u64
    requires { at + 8 ≤ length s.now }
    ensures { result ≡ word_at 8 s.now at }
{
    u64::from_le_bytes([
        s[at],
        s[at + 1],
        s[at + 2],
        s[at + 3],
        s[at + 4],
        s[at + 5],
        s[at + 6],
        s[at + 7],
    ])
}

// The number whose bits stand at a place.
pub fn float(s: &[u8], at: usize) -> f64
    ensures { result ≡ float_at s.now at }
{
    let len = s.len();
    if len >= 8 && at <= len - 8 {
        return binary64::float_of_bits(eight(s, at));
    }
    binary64::float_of_bits(word(s, at, 8))
}
