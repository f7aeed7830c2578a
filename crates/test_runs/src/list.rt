// What every test that answers a list shares: reading the list, lines on standard output, and why a list is not read on.

// standard input
const STDIN_FILENO: i32 = 0;
// standard output
const STDOUT_FILENO: i32 = 1;

// Why the list is not read on: it ends, it is not one, or a line could not be written.
#[derive(Clone, Copy, PartialEq, Eq)]
pub enum Stop {
    End,
    BadList,
    Unwritten,
}

// Reads a record's head, with which the list may end.
pub fn read_head(head: &mut [u8]) -> Result<(), Stop> {
    let got = io::read_full(STDIN_FILENO, head);
    if got == 0 {
        return Err(Stop::End);
    }
    if got < head.len() {
        Err(Stop::BadList)
    } else {
        Ok(())
    }
}

// Reads what follows a head, all of it.
pub fn read_rest(rest: &mut [u8]) -> Result<(), Stop> {
    let got = io::read_full(STDIN_FILENO, rest);
    if got < rest.len() {
        Err(Stop::BadList)
    } else {
        Ok(())
    }
}

// Writes a text within a line.
pub fn put(text: &[u8]) {
    io::write_all(STDOUT_FILENO, text);
}

// Writes a text and a number.
pub fn put_number(text: &[u8], number: u64) {
    put(text);
    io::print_decimal(STDOUT_FILENO, number);
}

// Writes the bits of a float in hexadecimal digits.
pub fn put_bits(x: f64) {
    io::print_hex(STDOUT_FILENO, binary64::bits_of_float(x), 16);
}

// Writes a text at whose end a line ends.
pub fn end(text: &[u8]) -> Result<(), Stop> {
    if io::write_all(STDOUT_FILENO, text) {
        Ok(())
    } else {
        Err(Stop::Unwritten)
    }
}

// What stands at the end where the list is not one.
pub fn say_stop(stop: Stop) {
    if stop == Stop::BadList {
        put(b"bad list\n");
    }
}
