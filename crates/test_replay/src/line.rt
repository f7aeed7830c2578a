// The lines, written to standard output. What says a line fails where the line's end could not be written.
use answer::Answer;
use layout::Shape;
use rust::AxisLocation;
use slices::SliceAnswer;
use test_runs::list;
use test_runs::list::Stop;
use utils::{AxisAnswer, ExactAnswer, IndexAnswer};

// Writes a blank and a number.
fn put_number(number: usize) {
    list::put_number(b" ", number as u64);
}

// Writes a blank and the bits of a float.
fn put_bits(x: f64) {
    list::put(b" ");
    list::put_bits(x);
}

// Writes whether a call is accepted, and tells it.
fn put_check(answer: Answer) -> bool {
    if answer.number == 0 {
        list::put(b"ok");
        return true;
    }
    list::put(b"no");
    put_number(answer.number as usize);
    put_number(answer.axis);
    put_number(answer.place);
    false
}

fn put_index(index: Option<usize>) {
    match index {
        Some(index) => put_number(index),
        None => list::put(b" none"),
    }
}

fn put_location(location: AxisLocation) {
    match location {
        AxisLocation::Exact(index) => {
            list::put(b" exact");
            put_number(index);
        }
        AxisLocation::Between { lower, frac } => {
            list::put(b" between");
            put_number(lower);
            put_bits(frac);
        }
    }
}

fn put_shape(shape: Shape) {
    list::put(b" shape");
    put_number(shape.axes);
    for count in &shape.counts {
        put_number(*count);
    }
}

pub(crate) fn say_check(answer: Answer) -> Result<(), Stop> {
    put_check(answer);
    list::end(b"\n")
}

// Says the line of an answer, all at once.
pub(crate) fn say_value(answer: Answer) -> Result<(), Stop> {
    let mut line = [0u8; lines::LONGEST];
    let n = lines::put_line(answer, &mut line, 0);
    list::end(&line[..n])
}

pub(crate) fn say_index(found: IndexAnswer) -> Result<(), Stop> {
    if put_check(found.answer) {
        put_number(found.index);
    }
    list::end(b"\n")
}

pub(crate) fn say_exact(found: ExactAnswer) -> Result<(), Stop> {
    if put_check(found.answer) {
        put_index(found.index);
    }
    list::end(b"\n")
}

pub(crate) fn say_location(found: AxisAnswer) -> Result<(), Stop> {
    if put_check(found.answer) {
        put_location(found.location);
    }
    list::end(b"\n")
}

// Says the first line of a slice.
pub(crate) fn say_slice(made: SliceAnswer) -> Result<(), Stop> {
    put_check(made.answer);
    put_shape(made.shape);
    list::end(b"\n")
}

pub(crate) fn say_bits(x: f64) -> Result<(), Stop> {
    list::put_bits(x);
    list::end(b"\n")
}

pub(crate) fn say_kept(count: usize) -> Result<(), Stop> {
    list::put(b"kept");
    put_number(count);
    list::end(b"\n")
}
