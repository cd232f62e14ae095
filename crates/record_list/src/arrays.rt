// An array with room for the longest plan's records. Public for the crates above.
ghost use Rattle.std.specs.Prelude.{◌≡◌};
ghost use Rattle.record_list.specs.Held.{blank};

use terms::limits::TRACE_LIMIT;
use terms::{Bucket, BucketRecord, Depth, Rate};

// Records of zeros.
#[tactic(auto, unfolding(crate::specs::Held::blank))]
pub fn blank_records() -> [BucketRecord; TRACE_LIMIT]
    ensures { result ≡ blank }
{
    let none = BucketRecord {
        periods: 0,
        bucket: Bucket {
            rate: Rate(0),
            depth: Depth(0),
        },
    };
    [none; TRACE_LIMIT]
}
