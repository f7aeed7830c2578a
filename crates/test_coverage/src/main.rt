// Gives the coverage report of each run of the list on standard input by the call `program::coverage::run`. The list and the reports are
// those of vectors/coverage.py.
#![tactic(auto)]

use program::coverage;
use program::run::RunAnswer;
use test_runs::Call;

// The coverage report of an input.
struct Report;

impl Call for Report {
    fn run(input: &[u8], out: &mut [u8]) -> RunAnswer {
        coverage::run(input, out)
    }
}

fn main() {
    test_runs::take_all_by::<Report>();
}
