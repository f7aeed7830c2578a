// What all programs share: the table image read from standard input, records fed block by block, what is printed at the end. A
// program is its `main` and what it does with a block. What can be said as an equation is said in `input`, `run`, `coverage` and
// `turns`; what `read` and `write` do, no contract can say.
#![tactic(auto)]

ghost use Rattle.std.specs.Prelude.{◌≡◌};
ghost use Rattle.program.specs.Whole.{none_counted};

use print::Unprinted;

// what the bytes of an input say, whatever its table: where the image ends, whether to read on, the input's end
pub mod input;
// the image at the front of an input, loaded
pub mod front;
// an image that was loaded, and its table
pub mod loaded;
// one whole run as a call: an input in memory, its lines in an output
pub mod run;
// the same of the coverage report
pub mod coverage;
// the table image and the blocks, read from standard input
pub mod stdin;
// a turn of the buffer: what is left of it is moved to its front
pub mod turns;
// all that is printed
pub mod print;
// the line of a refused image
pub mod refused;
// one whole run: the image, and what follows it
pub mod whole;

// Of a longer input so many records are answered.
pub const MOST_RECORDS: usize = 1000000;

// Of what follows the image, how many bytes were asked for and how many read; and how many were printed.
#[derive(Clone, Copy)]
pub struct Counts {
    pub asked: usize,
    pub read: usize,
    pub printed: usize,
}

impl Counts {
    // Before anything is asked for or printed.
    pub fn none() -> Counts
        ensures { result ≡ none_counted }
    {
        Counts {
            asked: 0,
            read: 0,
            printed: 0,
        }
    }
}

// What a program reads from and prints to, and what it counted of both.
#[derive(Drop)]
pub struct Ports<R, W> {
    pub from: R,
    pub to: W,
    pub counts: Counts,
}

impl<R, W> Ports<R, W> {
    // An input and an output of which nothing is counted yet.
    pub fn new(from: R, to: W) -> Ports<R, W>
        ensures lent { (result.from ≡ from) × (result.to ≡ to) }
        ensures counted { result.counts ≡ none_counted }
    {
        Ports {
            from,
            to,
            counts: Counts::none(),
        }
    }
}

// How many bytes of the input were taken for the image, what was counted after it, and whether all that was to be printed was.
#[derive(Clone, Copy)]
pub struct Totals {
    pub image: usize,
    pub after: Counts,
    pub printed: Result<(), Unprinted>,
}
