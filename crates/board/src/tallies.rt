// The coverage tally: a record of a lent table counted where the tally stands.
ghost use Rattle.std.specs.Prelude.{◌≡◌};
ghost use Rattle.ninterp.specs.Counting.{counted_record};

use answer::Answer;
use layout::Shape;
use ninterp::records::count;
use tally::Tally;

// Counts a record in a tally that its owner lends.
pub fn ng_count_record(
    tally: &mut Tally,
    shape: Shape,
    nodes: &[f64],
    values: &[f64],
    rec: &[u8],
) -> Answer
    ensures value { result ≡ (counted_record tally.old shape nodes.now values.now rec.now).answer }
    ensures tally_after { tally.new
        ≡ (counted_record tally.old shape nodes.now values.now rec.now).tally }
{
    count::count_record(tally, shape, nodes, values, rec)
}
