// What sets a depth, by weighing every opening and every stretch of up to four periods.
ghost use Rattle.std.specs.Prelude.{◌≤◌};

use causes::Cause;
use terms::Factor;

// Periods of a trace: how many stand before them, and how many they are. An opening has none before it.
#[derive(Clone, Copy)]
pub struct Part {
    before: u8,
    periods: u8,
}

// Whether a cause is that part, or nothing where there is none.
pub fn is_named(cause: Cause, found: Option<Part>) -> bool {
    let Some(part) = found else {
        return matches!(cause, Cause::Nothing);
    };
    let before = part.before as u32;
    let last = before + part.periods as u32;
    match cause {
        Cause::Nothing => false,
        Cause::Opening(x) => (before == 0) & (x.periods == last),
        Cause::Stretch(x) => (0 < before) & (x.first == before + 1) & (x.last == last),
    }
}

// The first part of the list that a depth one smaller falls short of; none at depth 0.
pub fn first_short(trace: &[u16], factor: Factor, rate: u8, depth: u8) -> Option<Part> {
    if depth == 0 {
        return None;
    }
    (0..10)
        .map(listed)
        .find(|&part| is_short(trace, factor, rate, depth - 1, part))
}

// The openings, shorter ones first; then the stretches, by their last period and then by their first.
fn listed(n: u8) -> Part {
    match n {
        0 => part_of(0, 1),
        1 => part_of(0, 2),
        2 => part_of(0, 3),
        3 => part_of(0, 4),
        4 => part_of(1, 1),
        5 => part_of(1, 2),
        6 => part_of(2, 1),
        7 => part_of(1, 3),
        8 => part_of(2, 2),
        _ => part_of(3, 1),
    }
}

fn part_of(before: u8, periods: u8) -> Part {
    Part { before, periods }
}

// Whether a bucket falls short of the need of a part that the trace has: of an opening's by its starting
// tokens, of a stretch's by its depth.
fn is_short(trace: &[u16], factor: Factor, rate: u8, depth: u8, part: Part) -> bool {
    let before = part.before as usize;
    let Some(demands) = trace.get(before..before + part.periods as usize) else {
        return false;
    };
    // at most four demands: none is cut off
    let demanded = demands
        .iter()
        .fold(0, |sum: u32, &demand| sum.saturating_add(demand as u32));
    let gained = gained(part.periods, rate as u16) as u32;
    if part.before == 0 {
        return start(factor, depth as u16) as u32 + gained < demanded;
    }
    depth as u32 + gained < demanded
}

// The rate for each of one to four periods.
fn gained(periods: u8, rate: u16) -> u16
    requires { rate ≤ 255 }
{
    match periods {
        1 => rate,
        2 => 2 * rate,
        3 => 3 * rate,
        _ => 4 * rate,
    }
}

// The starting tokens of a depth, by the factors 0/1, 1/1, 1/2, 2/3 and 1/3.
fn start(factor: Factor, depth: u16) -> u16
    requires { depth ≤ 255 }
{
    let p = factor.p;
    let q = factor.q;
    let times_p = match p {
        0 => 0,
        1 => depth,
        _ => 2 * depth,
    };
    match q {
        1 => times_p,
        2 => times_p / 2,
        _ => times_p / 3,
    }
}
