// The depth calls and the single call against trials of every bucket: a small case, its trace and tariff,
// and whether the calls answer as the trials do.
use depth::{depth_at, depth_from_end};
use samples::plain::{Best, cheapest, smallest};
use samples::small::{Small, demands, small_tariff, tariff_of};
use single::Priced;
use terms::{Depth, Rate, Refusal};

// One to four periods with demands 0 to 4, five factors, rate caps 0, 2 and 4, depth caps 0, 3 and
// 9, four price lists.
pub const CASES: u32 = 450_000;

// Case n: four demands, how many of them, and a tariff with fee 4.
pub fn agrees(n: u32) -> bool {
    let trace = demands(n);
    let turned: [u16; 4] = [trace[3], trace[2], trace[1], trace[0]];
    let small = small_tariff(n / 2500, 4);
    match n / 625 % 4 {
        0 => all_agree(&trace[..1], &turned[3..], small),
        1 => all_agree(&trace[..2], &turned[2..], small),
        2 => all_agree(&trace[..3], &turned[1..], small),
        _ => all_agree(&trace, &turned, small),
    }
}

// A trace, and the same turned round, last period first.
fn all_agree(trace: &[u16], turned: &[u16], small: Small) -> bool {
    singles_agree(trace, small) & depths_agree(trace, turned, small)
}

fn singles_agree(trace: &[u16], small: Small) -> bool {
    same_single(
        single::single(trace, tariff_of(small)),
        cheapest(trace, small),
    )
}

fn same_single(a: Result<Priced, Refusal>, best: Option<Best>) -> bool {
    match (a, best) {
        (Ok(x), Some(y)) => {
            let rate = x.bucket.rate.0 == y.rate as u32;
            let depth = x.bucket.depth.0 == y.depth as u32;
            rate & depth & (x.cost == y.cost as u64)
        }
        (Err(why), None) => why == Refusal::NoPlan,
        _ => false,
    }
}

// At every rate up to the cap.
fn depths_agree(trace: &[u16], turned: &[u16], small: Small) -> bool {
    (0..=small.rate_cap).all(|rate| both_agree(trace, turned, small, rate))
}

fn both_agree(trace: &[u16], turned: &[u16], small: Small, rate: u8) -> bool {
    let tariff = tariff_of(small);
    let depth = smallest(trace, small, rate);
    let rate = Rate(rate as u32);
    same_depth(depth_at(trace, rate, tariff), depth)
        & same_depth(depth_from_end(turned, rate, tariff), depth)
}

fn same_depth(a: Result<Depth, Refusal>, depth: Option<u8>) -> bool {
    match (a, depth) {
        (Ok(x), Some(y)) => x.0 == y as u32,
        (Err(why), None) => why == Refusal::NoPlan,
        _ => false,
    }
}
