// Reads an image and then records from standard input, counts the records, and prints the coverage report.
#![tactic(auto)]

// records from an input, block by block
mod feed;
// what is printed of records
mod print;

ghost use Rattle.program.specs.Coverage.{report_by};
ghost use Rattle.coverage.specs.Whole.{report_enough};

use program::loaded::Loaded;
use program::print::Unprinted;
use program::whole::Records;
use program::{Ports, whole};
use std::io;
use std::io::{Read, Write};

// One report of all records: a byte after record 1,000,000 is enough.
struct Report;

impl Records for Report {
    ghost text = { report_by };

    ghost enough = { report_enough };

    fn feed<R: Read, W: Write>(
        ports: &mut Ports<R, W>,
        loaded: &Loaded<'_>,
    ) -> Result<(), Unprinted> {
        feed::count_all(ports, loaded.img, loaded.shape, loaded.nodes, loaded.values)
    }
}

fn main(rt: HostRuntime) {
    let mut ports = Ports::new(rt.stdin(), io::writer(&rt));
    let mut img = [0u8; image::MOST_BYTES];
    let mut nodes = [0.0f64; 256];
    let mut values = [0.0f64; 4096];
    whole::run::<Report, _, _>(&mut ports, &mut img, &mut nodes, &mut values);
}
