// A list of bucket records that a call is lent, filled beforehand with records that all differ, and
// compared afterwards. Public only for the test programs, which show what is required.
ghost use Rattle.std.specs.Prelude.{◌≤◌};

use terms::limits::TRACE_LIMIT;
use terms::{Bucket, BucketRecord, Depth, Rate};

// Some more entries than the longest trace has periods.
pub const ENTRIES: usize = TRACE_LIMIT + 4;

// A number, or the most that there are.
pub fn at_most(n: usize, most: usize) -> usize
    ensures { result ≤ most }
{
    n.min(most)
}

pub fn record_of(periods: u32, rate: u32, depth: u32) -> BucketRecord {
    let bucket = Bucket {
        rate: Rate(rate),
        depth: Depth(depth),
    };
    BucketRecord { periods, bucket }
}

// The records whose rates and depths count up from these; so do their run lengths, unless all are
// alike.
pub fn counted(periods: u32, alike: bool, rate: u32, depth: u32) -> [BucketRecord; ENTRIES]
    requires { (periods ≤ 30000) × (rate ≤ 30000) × (depth ≤ 30000) }
{
    let mut list = [record_of(0, 0, 0); ENTRIES];
    for i in 0..ENTRIES {
        let n = i as u32;
        list[i] = record_of(periods + longer(n, alike), rate + n, depth + n);
    }
    list
}

// How much longer the n-th run is than the first.
fn longer(n: u32, alike: bool) -> u32
    ensures { result ≤ n }
{
    if alike { 0 } else { n }
}

// What a lent list holds before a call.
pub fn filled() -> [BucketRecord; ENTRIES] {
    counted(10_000, false, 20_000, 30_000)
}

// Whether the records from one on are as they were filled.
pub fn are_kept(list: [BucketRecord; ENTRIES], start: usize) -> bool {
    are_same(list, filled(), start)
}

// Whether two lists hold the same from one record on.
pub fn are_same(a: [BucketRecord; ENTRIES], b: [BucketRecord; ENTRIES], start: usize) -> bool {
    a.iter().zip(&b).skip(start).all(|(a, b)| a == b)
}
