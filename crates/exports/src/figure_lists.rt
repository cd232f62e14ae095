// The figures of bucket records in three number lists. Public only for this crate's calls, which show
// what is required.
ghost use Rattle.std.specs.Prelude.{◌≤◌, length};
ghost use Rattle.terms.specs.Answer.{figures};
ghost use Rattle.exports.specs.Lists.{Filled, lists, room_of};

use terms::BucketRecord;

// Stores the run length, the rate and the depth of each of the records at the fronts of the lists.
pub fn store_figures(
    records: &[BucketRecord],
    runs: &mut [u32],
    rates: &mut [u32],
    depths: &mut [u32],
)
    requires { length records.now ≤ room_of runs.old rates.old depths.old }
    ensures { Filled (figures records.now)
        (lists runs.old rates.old depths.old)
        (lists runs.new rates.new depths.new) }
{
    for (i, &x) in records.iter().enumerate() {
        runs[i] = x.periods;
        rates[i] = x.bucket.rate.0;
        depths[i] = x.bucket.depth.0;
    }
}
