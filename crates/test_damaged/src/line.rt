// The line of an image.
use answer::Answer;
use image::LoadAnswer;
use layout::Shape;
use test_runs::list;
use writer::WriteAnswer;

// Writes an answer, its value in hexadecimal digits.
fn put_answer(answer: Answer) {
    list::put_number(b"", answer.number as u64);
    list::put_number(b" ", answer.axis as u64);
    list::put_number(b" ", answer.place as u64);
    list::put(b" ");
    list::put_bits(answer.value);
}

// Writes a shape with all its counts.
fn put_shape(shape: Shape) {
    list::put_number(b" shape ", shape.axes as u64);
    for count in &shape.counts {
        list::put_number(b" ", *count as u64);
    }
}

// Writes how a load went, with the sums of the outputs.
pub(crate) fn say_load(made: LoadAnswer, nodes: u64, values: u64) {
    put_answer(made.answer);
    put_shape(made.shape);
    list::put_number(b" nodes ", nodes);
    list::put_number(b" values ", values);
}

// Writes how a write went, with the sum of the output.
pub(crate) fn say_write(made: WriteAnswer, bytes: u64) {
    list::put(b" write ");
    put_answer(made.answer);
    list::put_number(b" length ", made.length as u64);
    list::put_number(b" bytes ", bytes);
}

// Writes what stands before the second load.
pub(crate) fn say_again() {
    list::put(b" load ");
}
