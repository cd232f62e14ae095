// The list that a call is lent: what a cutting records in it.
ghost use Rattle.std.specs.Prelude.{◌<◌};

use crate::cuttings::Cutting;
use crate::runs::of_run;
use samples::lent_records::{ENTRIES, filled, record_of};
use samples::plain::Best;
use samples::small::Small;
use terms::BucketRecord;

// The buckets of a cutting at the front, and after them what was there before.
pub fn recorded(trace: &[u16], small: Small, c: Cutting) -> [BucketRecord; ENTRIES] {
    let second = c.first as usize;
    let third = second + c.second as usize;
    let fourth = third + c.third as usize;
    let list = filled();
    let list = with_run(list, 0, c.first, of_run(trace, small, 0, c.first));
    let list = with_run(list, 1, c.second, of_run(trace, small, second, c.second));
    let list = with_run(list, 2, c.third, of_run(trace, small, third, c.third));
    with_run(list, 3, c.fourth, of_run(trace, small, fourth, c.fourth))
}

// The list with a run and its bucket at one entry, or as it is where there is no run.
fn with_run(
    list: [BucketRecord; ENTRIES],
    k: usize,
    periods: u8,
    best: Option<Best>,
) -> [BucketRecord; ENTRIES]
    requires { k < 4 }
{
    let mut new = list;
    if let Some(best) = best {
        new[k] = record_of(periods as u32, best.rate as u32, best.depth as u32);
    }
    new
}
