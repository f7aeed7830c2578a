// Answers each run of the list on standard input by the call `program::run::run`. The list and the lines are those of oracle/README.md.
#![tactic(auto)]

use program::run;
use program::run::RunAnswer;
use test_runs::Call;

// The lines of an input.
struct Lines;

impl Call for Lines {
    fn run(input: &[u8], out: &mut [u8]) -> RunAnswer {
        run::run(input, out)
    }
}

fn main() {
    test_runs::take_all_by::<Lines>();
}
