// Every small bucket, factor and trace of three periods: trial and meter against a plain run.
use bucket::TrialFigures;
use meter::Meter;
use terms::{Bucket, Depth, Factor, Rate, Refusal};

// Rates 0 to 4, depths 0 to 5, factors 0/2 to 2/2 and demands 0 to 6.
pub const CASES: u32 = 30_870;

// Whether trial and meter discard what the plain run does in case n.
pub fn agrees(n: u32) -> bool {
    let rate = n % 5;
    let depth = n / 5 % 6;
    let p = n / 30 % 3;
    let trace: [u16; 3] = [demand(n / 90), demand(n / 630), demand(n / 4410)];
    let bucket = Bucket {
        rate: Rate(rate),
        depth: Depth(depth),
    };
    let factor = Factor { p, q: 2 };
    let wanted = plain_over(rate, depth, start(p, depth), trace);
    let tried = tried_over(bucket::trial(bucket, factor, &trace));
    let metered = metered_over(meter::open_meter(bucket, factor), trace);
    (tried == Some(wanted)) & (metered == Some(wanted))
}

// The tokens of a fresh bucket: none, half of its depth or all of it.
fn start(p: u32, depth: u32) -> u32 {
    match p {
        0 => 0,
        1 => depth / 2,
        _ => depth,
    }
}

fn demand(n: u32) -> u16 {
    (n % 7) as u16
}

// What the trial discards; none on a refusal, or where the spare's sign does not say whether anything is
// discarded.
fn tried_over(a: Result<TrialFigures, Refusal>) -> Option<u64> {
    match a {
        Ok(t) if (t.spare < 0) == (0 < t.over) => Some(t.over as u64),
        _ => None,
    }
}

fn metered_over(a: Result<Meter, Refusal>, trace: [u16; 3]) -> Option<u64> {
    a.ok().map(|m| offered(m, trace).over)
}

fn offered(m: Meter, trace: [u16; 3]) -> Meter {
    trace
        .iter()
        .fold(m, |m, &demand| meter::offer(m, demand).meter)
}

// The tokens after a period, and what it discards.
#[derive(Clone, Copy)]
struct Ran {
    tokens: u32,
    over: u16,
}

// One period by cases: short of tokens, overflowing, or neither.
fn run(rate: u32, depth: u32, tokens: u32, demand: u16) -> Ran {
    let have = tokens as u64 + rate as u64;
    let wanted = demand as u64;
    if have < wanted {
        return Ran {
            tokens: 0,
            over: (wanted - have) as u16,
        };
    }
    let left = have - wanted;
    if left > depth as u64 {
        return Ran {
            tokens: depth,
            over: 0,
        };
    }
    Ran {
        tokens: left as u32,
        over: 0,
    }
}

fn plain_over(rate: u32, depth: u32, start: u32, trace: [u16; 3]) -> u64 {
    let first = run(rate, depth, start, trace[0]);
    let second = run(rate, depth, first.tokens, trace[1]);
    let third = run(rate, depth, second.tokens, trace[2]);
    first.over as u64 + second.over as u64 + third.over as u64
}
