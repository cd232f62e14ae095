// The smallest depth and the cheapest bucket by trial alone: every pair inside the caps is tried.
ghost use Rattle.std.specs.Prelude.{◌≤◌};

use crate::small::Small;
use terms::{Bucket, Depth, Factor, Rate};

// A bucket and what it costs.
#[derive(Clone, Copy)]
pub struct Best {
    pub rate: u8,
    pub depth: u8,
    pub cost: u16,
}

// The first depth up to the cap that carries the trace, if there is one.
pub fn smallest(trace: &[u16], small: Small, rate: u8) -> Option<u8> {
    (0..=small.depth_cap).find(|&depth| carries(trace, small.factor, rate, depth))
}

// The cheapest pair, if there is one, and of equal ones the first in the order of rates and then depths.
pub fn cheapest(trace: &[u16], small: Small) -> Option<Best> {
    (0..=small.rate_cap).fold(None, |best, rate| at_rate(best, trace, small, rate))
}

fn at_rate(so_far: Option<Best>, trace: &[u16], small: Small, rate: u8) -> Option<Best> {
    (0..=small.depth_cap)
        .filter(|&depth| carries(trace, small.factor, rate, depth))
        .fold(so_far, |best, depth| {
            let cost = cost(small, trace.len(), rate, depth);
            cheaper(best, Best { rate, depth, cost })
        })
}

// Whether nothing is discarded.
fn carries(trace: &[u16], factor: Factor, rate: u8, depth: u8) -> bool {
    let bucket = Bucket {
        rate: Rate(rate as u32),
        depth: Depth(depth as u32),
    };
    bucket::trial(bucket, factor, trace).is_ok_and(|t| t.over == 0)
}

fn cheaper(best: Option<Best>, new: Best) -> Option<Best> {
    match best {
        Some(old) if old.cost <= new.cost => best,
        _ => Some(new),
    }
}

// The cost for one to four periods.
fn cost(small: Small, periods: usize, rate: u8, depth: u8) -> u16 {
    let period = per_period(small.prices, rate as u16, depth as u16);
    let fee = small.fee as u16;
    match periods {
        1 => period + fee,
        2 => period + period + fee,
        3 => period + period + period + fee,
        _ => period + period + period + period + fee,
    }
}

// What a bucket costs in a period: price lists 0 and 0, 2 and 1, 1 and 1, 7 and 5.
fn per_period(prices: u8, rate: u16, depth: u16) -> u16
    requires rate_bound { rate ≤ 255 }
    requires depth_bound { depth ≤ 255 }
    ensures { result ≤ 3060 }
{
    match prices {
        0 => 0,
        1 => 2 * rate + depth,
        2 => rate + depth,
        _ => 7 * rate + 5 * depth,
    }
}
