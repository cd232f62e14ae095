// Every cutting of one to four periods, and the one that is preferred.
ghost use Rattle.std.specs.Prelude.{◌≤◌};

use crate::runs::of_run;
use samples::small::Small;

// The lengths of the runs; 0 where there is no more run.
#[derive(Clone, Copy)]
pub struct Cutting {
    pub first: u8,
    pub second: u8,
    pub third: u8,
    pub fourth: u8,
}

// A cutting and its cost.
#[derive(Clone, Copy)]
pub struct Choice {
    pub cutting: Cutting,
    pub cost: u32,
}

// The cheapest cutting of a trace, if there is one, and of equal ones the first in the list of cuttings.
pub fn preferred(trace: &[u16], small: Small) -> Option<Choice> {
    match trace.len() {
        1 => among(trace, small, 0, 1),
        2 => among(trace, small, 1, 3),
        3 => among(trace, small, 3, 7),
        _ => among(trace, small, 7, 15),
    }
}

fn among(trace: &[u16], small: Small, start: u8, end: u8) -> Option<Choice> {
    (start..end)
        .map(listed)
        .fold(None, |best, new| cheaper(best, trace, small, new))
}

// The cuttings of 1, 2, 3 and 4 periods: fewer runs first, then the longer first run and so on.
fn listed(n: u8) -> Cutting {
    match n {
        0 => runs(1, 0, 0, 0),
        1 => runs(2, 0, 0, 0),
        2 => runs(1, 1, 0, 0),
        3 => runs(3, 0, 0, 0),
        4 => runs(2, 1, 0, 0),
        5 => runs(1, 2, 0, 0),
        6 => runs(1, 1, 1, 0),
        7 => runs(4, 0, 0, 0),
        8 => runs(3, 1, 0, 0),
        9 => runs(2, 2, 0, 0),
        10 => runs(1, 3, 0, 0),
        11 => runs(2, 1, 1, 0),
        12 => runs(1, 2, 1, 0),
        13 => runs(1, 1, 2, 0),
        _ => runs(1, 1, 1, 1),
    }
}

fn runs(first: u8, second: u8, third: u8, fourth: u8) -> Cutting {
    Cutting {
        first,
        second,
        third,
        fourth,
    }
}

fn cheaper(best: Option<Choice>, trace: &[u16], small: Small, new: Cutting) -> Option<Choice> {
    let Some(cost) = cost(trace, small, new) else {
        return best;
    };
    match best {
        Some(old) if old.cost <= cost => best,
        _ => Some(Choice { cutting: new, cost }),
    }
}

// The sum of the runs' costs, if each run has a bucket.
fn cost(trace: &[u16], small: Small, c: Cutting) -> Option<u32> {
    let second = c.first as usize;
    let third = second + c.second as usize;
    let fourth = third + c.third as usize;
    let front = price(trace, small, 0, c.first)? as u32
        + price(trace, small, second, c.second)? as u32;
    let back = price(trace, small, third, c.third)? as u32
        + price(trace, small, fourth, c.fourth)? as u32;
    Some(front + back)
}

// What the run from a start on costs; nothing where there is no run.
fn price(trace: &[u16], small: Small, start: usize, periods: u8) -> Option<u16> {
    if periods == 0 {
        return Some(0);
    }
    of_run(trace, small, start, periods).map(|best| best.cost)
}

pub fn buckets_of(c: Cutting) -> u32 {
    counted(c.first) + counted(c.second) + counted(c.third) + counted(c.fourth)
}

// One for a run, none for no run.
fn counted(periods: u8) -> u32
    ensures { result ≤ 1 }
{
    u32::from(0 < periods)
}
