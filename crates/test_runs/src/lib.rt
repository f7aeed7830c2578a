// Runs each input of a list on standard input, an image and records, from memory, by a call: `program::run::run`, which gives an input's
// lines, or `program::coverage::run`, which gives its coverage report.
#![tactic(auto)]

// what every test that answers a list shares
pub mod list;
// runs by a call that is lent
mod lent;
// an output of one byte less than a run writes
mod room;

use list::Stop;
use program::run::RunAnswer;

// How many bytes an input of the list has at most.
const MOST_BYTES: usize = 40_000;

// The text of an input of the list: at most 20 bytes for 9 of a record, or a report.
const MOST_TEXT: usize = 98_304;

// The call that runs an input of the list.
pub trait Call {
    // Puts what the input says into an output, which may be longer.
    fn run(input: &[u8], out: &mut [u8]) -> RunAnswer;
}

// Runs an input, and writes what it put into the output.
fn print_run<C: Call>(input: &[u8], out: &mut [u8]) {
    let done = C::run(input, out);
    let n = done.written.min(out.len());
    list::put(&out[..n]);
}

// Runs an input in all of the output, then in one byte less than its text has, then in just as many, which are written.
fn answer<C: Call>(input: &[u8], out: &mut [u8]) {
    let done = C::run(input, out);
    let n = done.written.min(out.len());
    room::try_less::<C>(input, n, out);
    print_run::<C>(input, &mut out[..n]);
}

// The length of the next run: four bytes, little-endian.
fn read_length() -> Result<usize, Stop> {
    let mut head = [0u8; 4];
    list::read_head(&mut head)?;
    Ok(little_endian::word(&head, 0, 4) as usize)
}

// Reads the next run of the list, and says which it is.
fn read_run(run: u64, space: &mut [u8]) -> Result<&mut [u8], Stop> {
    let length = read_length()?;
    if length > space.len() {
        return Err(Stop::BadList);
    }
    let input = &mut space[..length];
    list::read_rest(input)?;
    list::put_number(b"run ", run);
    list::end(b"\n")?;
    Ok(input)
}

// Takes the next run of the list.
fn take<C: Call>(run: u64, space: &mut [u8], out: &mut [u8]) -> Result<(), Stop> {
    let input = read_run(run, space)?;
    answer::<C>(input, out);
    Ok(())
}

// Takes all runs of the list, and writes what the call gives of each.
pub fn take_all<F: Fn(&[u8], &mut [u8]) -> RunAnswer>(call: F)
    requires { F.IsAlwaysCallable call }
{
    let mut space = [0u8; MOST_BYTES];
    let mut out = [0u8; MOST_TEXT];
    for run in 0..u64::MAX {
        if let Err(stop) = lent::take(&call, run, &mut space, &mut out) {
            return list::say_stop(stop);
        }
    }
}

// The same by a call that a type names, of which nothing is asked.
pub fn take_all_by<C: Call>() {
    let mut space = [0u8; MOST_BYTES];
    let mut out = [0u8; MOST_TEXT];
    for run in 0..u64::MAX {
        if let Err(stop) = take::<C>(run, &mut space, &mut out) {
            return list::say_stop(stop);
        }
    }
}

#[cfg(test)]
mod tests {
    use super::*;
    use program::run;
    use std::cell::Cell;
    use std::fs;
    use std::test::Fail;

    // Two runs, of three bytes and of none; neither is an image. Each is run three times.
    const LIST: [u8; 11] = [3, 0, 0, 0, 1, 2, 3, 0, 0, 0, 0];

    // A call that is lent may hold something: how often it was made, and of how many bytes in all.
    #[test]
    fn takes_runs_by_a_call_that_holds(rt: HostRuntime) -> Result<(), Fail> {
        // nothing stands there, so that no file which somebody lends is written over
        assert!(rt; list::read_head(&mut [0u8; 1]) == Err(Stop::End));
        fs::write(&rt, "/dev/stdin", LIST.as_slice())?;
        let held = Cell::new((0u32, 0usize));
        take_all(|input, out| {
            let (made, bytes) = held.get();
            held.set((made.wrapping_add(1), bytes.wrapping_add(input.len())));
            run::run(input, out)
        });
        assert_eq!(rt; held.get(), (6, 9));
        Ok(())
    }
}
