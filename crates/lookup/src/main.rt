// Reads an image and then records from standard input, and prints a line for each record.
#![tactic(auto)]

// records from an input, block by block
mod feed;
// what is printed of records
mod print;

ghost use Rattle.program.specs.Run.{lines_by};
ghost use Rattle.lookup.specs.Whole.{lines_enough};

use program::loaded::Loaded;
use program::print::Unprinted;
use program::whole::Records;
use program::{Ports, whole};
use std::io;
use std::io::{Read, Write};

// A line for each record: 1,000,000 records are enough.
struct Lines;

impl Records for Lines {
    ghost text = { lines_by };

    ghost enough = { lines_enough };

    fn feed<R: Read, W: Write>(
        ports: &mut Ports<R, W>,
        loaded: &Loaded<'_>,
    ) -> Result<(), Unprinted> {
        feed::answer_all(ports, loaded.img, loaded.shape, loaded.nodes, loaded.values)
    }
}

fn main(rt: HostRuntime) {
    let mut ports = Ports::new(rt.stdin(), io::writer(&rt));
    let mut img = [0u8; image::MOST_BYTES];
    let mut nodes = [0.0f64; 256];
    let mut values = [0.0f64; 4096];
    whole::run::<Lines, _, _>(&mut ports, &mut img, &mut nodes, &mut values);
}
