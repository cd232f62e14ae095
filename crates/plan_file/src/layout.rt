// Where a plan file has its parts, and how many buckets a plan may have. Public only for this crate's
// calls.
ghost use Rattle.std.specs.Prelude.{◌≡◌};
ghost use Rattle.plan_file.specs.Plan.{counts_ok};

use terms::limits::TRACE_LIMIT;
use terms::periods_in_range;

pub const PLAN_KIND: u32 = 2;

pub const COST_OFFSET: usize = 24;

pub const BUCKETS_OFFSET: usize = 32;

// The bytes of a record.
pub const RECORD_BYTES: usize = 12;

// The bytes of the longest plan.
pub const LONGEST_PLAN: usize = BUCKETS_OFFSET + RECORD_BYTES * TRACE_LIMIT;

// Whether T is 1 to 512 and the number of buckets 1 to T.
pub fn counts_in_range(periods: u32, buckets: u32) -> bool
    ensures { result ≡ counts_ok periods buckets }
{
    periods_in_range(periods as usize) && 1 <= buckets && buckets <= periods
}
