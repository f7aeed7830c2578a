// Runs by a call that is lent: the same as by one that a type names, step for step, since a trait's function can hold nothing, and of a
// closure that is lent no type can say yet that it may be called.
use crate::list::Stop;
use crate::room::{self, MARK};
use crate::{list, read_run};
use program::run::RunAnswer;

// Runs an input into an output that is too short, and writes a line where it is not refused or not left as it was.
fn try_short<F: Fn(&[u8], &mut [u8]) -> RunAnswer>(call: &F, input: &[u8], out: &mut [u8])
    requires { F.IsAlwaysCallable call.now }
{
    out.fill(MARK);
    let done = call(input, out);
    room::say_kept(done, out);
}

// Runs an input that writes n bytes into one byte less.
fn try_less<F: Fn(&[u8], &mut [u8]) -> RunAnswer>(call: &F, input: &[u8], n: usize, out: &mut [u8])
    requires { F.IsAlwaysCallable call.now }
{
    if n == 0 {
        return;
    }
    let less = (n - 1).min(out.len());
    try_short(call, input, &mut out[..less]);
}

// Runs an input, and writes what it put into the output.
fn print_run<F: Fn(&[u8], &mut [u8]) -> RunAnswer>(call: &F, input: &[u8], out: &mut [u8])
    requires { F.IsAlwaysCallable call.now }
{
    let done = call(input, out);
    let n = done.written.min(out.len());
    list::put(&out[..n]);
}

// Runs an input in all of the output, then in one byte less than its text has, then in just as many, which are written.
fn answer<F: Fn(&[u8], &mut [u8]) -> RunAnswer>(call: &F, input: &[u8], out: &mut [u8])
    requires { F.IsAlwaysCallable call.now }
{
    let done = call(input, out);
    let n = done.written.min(out.len());
    try_less(call, input, n, out);
    print_run(call, input, &mut out[..n]);
}

// Takes the next run of the list.
pub(crate) fn take<F: Fn(&[u8], &mut [u8]) -> RunAnswer>(
    call: &F,
    run: u64,
    space: &mut [u8],
    out: &mut [u8],
) -> Result<(), Stop>
    requires { F.IsAlwaysCallable call.now }
{
    let input = read_run(run, space)?;
    answer(call, input, out);
    Ok(())
}
