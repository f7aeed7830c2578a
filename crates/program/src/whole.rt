// One whole run of a program: the image is read and loaded, and the records that follow it are taken, or its refusal is printed.
ghost use Rattle.std.specs.Prelude.{◌≡◌, List, ℕ, length, take};
ghost use Rattle.program.specs.Input.{image_in};
ghost use Rattle.program.specs.Whole.{Ran};

use crate::loaded::Loaded;
use crate::print::Unprinted;
use crate::{Ports, Totals, front, refused, stdin};
use std::io::{Read, Write};

// What a program does with records.
pub trait Records {
    // what it prints of an image and the records that follow it
    ghost text: { List ℕ → List ℕ → List ℕ };

    // how many bytes after an image are enough
    ghost enough: { List ℕ → ℕ };

    // Takes the records that follow an image, until the input ends or there were enough.
    fn feed<R: Read, W: Write>(
        ports: &mut Ports<R, W>,
        loaded: &Loaded<'_>,
    ) -> Result<(), Unprinted>
        ensures { Ran text (enough loaded.now.img.now) loaded.now.img.now ports.new.counts result };
}

// Loads the image that was read into two outputs, and takes the records by what stands at their fronts; or the image is refused.
fn take_image<P: Records, R: Read, W: Write>(
    ports: &mut Ports<R, W>,
    img: &[u8],
    nodes: &mut [f64; 256],
    values: &mut [f64; 4096],
) -> Result<(), Unprinted>
    requires { image_in img.now ≡ img.now }
    ensures { Ran P.text (P.enough img.now) img.now ports.new.counts result }
{
    let loaded = front::load(img, nodes, values);
    let answer = loaded.answer;
    if answer.number != 0 {
        return refused::refuse(ports, img);
    }
    let n = loaded.nodes;
    let v = loaded.values;
    let table = Loaded {
        img,
        shape: loaded.shape,
        nodes: &nodes[..n],
        values: &values[..v],
    };
    P::feed(ports, &table)
}

// One whole run: the image, and what follows it.
pub fn run<P: Records, R: Read, W: Write>(
    ports: &mut Ports<R, W>,
    img: &mut [u8],
    nodes: &mut [f64; 256],
    values: &mut [f64; 4096],
) -> Totals
    ensures img_after { image_in (take result.image img.new) ≡ take result.image img.new }
    ensures whole { Ran P.text (P.enough (take result.image img.new)) (take result.image img.new) result.after result.printed }
{
    let size = stdin::read_image(&mut ports.from, img);
    let printed = take_image::<P, R, W>(ports, &img[..size], nodes, values);
    Totals {
        image: size,
        after: ports.counts,
        printed,
    }
}
