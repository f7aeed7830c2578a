// The coverage tally: a record of a lent table counted where the tally stands.
ghost use Rattle.std.specs.Prelude.{◌≡◌};
ghost use Rattle.ninterp.specs.Counting.{counted_record};

use answer::Answer;
use board::tallies;
use layout::Shape;
use tally::Tally;

// Counts a record in a tally that its owner lends.
#[unsafe(no_mangle)]
pub extern "C" fn ng_count_record(
    tally: &mut Tally,
    shape: Shape,
    nodes: &[f64],
    values: &[f64],
    rec: &[u8],
) -> Answer
    ensures value { result ≡ (counted_record tally.old shape nodes.now values.now rec.now).answer }
    ensures tally_after { tally.new
        ≡ (counted_record tally.old shape nodes.now values.now rec.now).tally }
{
    tallies::ng_count_record(tally, shape, nodes, values, rec)
}
