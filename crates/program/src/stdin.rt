// An input: the table image, then blocks of records. How much of it is the image is worked out in `input`.
ghost use Rattle.std.specs.Prelude.{◌≡◌, ◌≤◌, length, take};
ghost use Rattle.lines.specs.Scaffolding.{Filled};
ghost use Rattle.program.specs.Input.{image_in};

use crate::input;
use std::io::Read;

// Reads until a buffer is full, the input ends or a read fails, and answers how many bytes stand at its front.
fn read_full<R: Read>(from: &mut R, buf: &mut [u8]) -> usize
    ensures { result ≤ length buf.new }
{
    let mut done: usize = 0;
    while done < buf.len() {
        match from.read(&mut buf[done..]) {
            Ok(0) => break,
            Ok(n) => done += n,
            Err(_) => break,
        }
    }
    done
}

// Reads the first 40 bytes, and answers how many there are.
fn read_head<R: Read>(from: &mut R, img: &mut [u8]) -> usize
    requires { 40 ≤ length img.old }
    ensures { (result ≤ 40) × (result ≤ length img.new) }
{
    read_full(from, &mut img[..image::HEADER])
}

// Reads on after 40 bytes up to a size, and answers how many bytes there are then.
fn read_rest<R: Read>(from: &mut R, img: &mut [u8], size: usize) -> usize
    requires { (40 ≤ size) × (size ≤ length img.old) }
    ensures { Filled 40 img.old img.new result × (result ≤ size) }
{
    let more = read_full(from, &mut img[image::HEADER..size]);
    image::HEADER + more
}

// Reads 40 bytes, then up to the stated length, and answers how many there are: all of them are the image. Reads nothing into a
// space that is too short for a longest image.
pub fn read_image<R: Read>(from: &mut R, img: &mut [u8]) -> usize
    ensures { (result ≤ length img.new) × (image_in (take result img.new) ≡ take result img.new) }
{
    if img.len() < image::MOST_BYTES {
        return 0;
    }
    let got = read_head(from, img);
    if got < image::HEADER {
        return got;
    }
    let size = input::image_size(&img[..image::HEADER]);
    read_rest(from, img, size)
}

// Reads on after the bytes that are held at the front of a buffer, and answers how many bytes there are then.
pub fn fill<R: Read>(from: &mut R, buf: &mut [u8], held: usize) -> usize
    ensures { held ≤ length buf.old → Filled held buf.old buf.new result }
{
    if held > buf.len() {
        return 0;
    }
    let got = read_full(from, &mut buf[held..]);
    held + got
}
