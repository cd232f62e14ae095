// The explaining call against trials and a plain search, on every small case.
#![tactic(auto)]

mod plain;

use causes::explain;
use plain::{first_short, is_named};
use samples::plain::smallest;
use samples::small::{Small, demands, small_tariff, tariff_of};
use terms::{Rate, Refusal};

// One to four periods with demands 0 to 4, five factors, rate caps 0, 2 and 4, depth caps 0, 3 and 9, and
// rates 0 to 4.
const CASES: u32 = 562_500;

fn main(rt: HostRuntime) {
    report::words(&rt, b"depth and cause: ");
    report::agreement(&rt, CASES, agrees);
}

// Case n: a rate, four demands, how many of them, and a tariff.
fn agrees(n: u32) -> bool {
    let rate = (n % 5) as u8;
    let k = n / 5;
    let trace = demands(k);
    let small = small_tariff(k / 2500, 4);
    match k / 625 % 4 {
        0 => agrees_on(&trace[..1], small, rate),
        1 => agrees_on(&trace[..2], small, rate),
        2 => agrees_on(&trace[..3], small, rate),
        _ => agrees_on(&trace, small, rate),
    }
}

// The smallest depth by trial and the cause by search; or 5 for a rate above the cap, or 7 for no depth.
fn agrees_on(trace: &[u16], small: Small, rate: u8) -> bool {
    let sold = rate <= small.rate_cap;
    let depth = smallest(trace, small, rate);
    match (explain(trace, Rate(rate as u32), tariff_of(small)), depth) {
        (Ok(x), Some(depth)) => {
            let found = first_short(trace, small.factor, rate, depth);
            sold & (x.depth.0 == depth as u32) & is_named(x.cause, found)
        }
        (Err(why), None) if sold => why == Refusal::NoPlan,
        (Err(why), _) => !sold & (why == Refusal::Figure),
        (Ok(_), None) => false,
    }
}
