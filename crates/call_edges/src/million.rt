// As many periods as a meter takes, and one more: offered one by one, and in a run.
use crate::meters::{figures, offers, print_meter};
use meter::{Meter, meter_run, open_meter};
use terms::{Bucket, Depth, Factor, Rate};

const OFFERS: u32 = 1_000_000;

const DEMAND: u16 = 6;

// Rate 5 and depth 4.
fn bucket() -> Bucket {
    Bucket {
        rate: Rate(5),
        depth: Depth(4),
    }
}

// A meter takes a million offers and refuses the next.
pub fn offers_until_full(rt: &impl Print) {
    let opened = open_meter(bucket(), Factor { p: 1, q: 2 });
    let Ok(m) = opened else {
        return;
    };
    let full = after_offers(m);
    report::words(rt, b"after 1000000 offers of 6:");
    figures(rt, full);
    report::end_line(rt);
    offers(rt, b"a full meter", full);
}

fn after_offers(m: Meter) -> Meter {
    let mut m = m;
    for _ in 0..OFFERS {
        m = meter::offer(m, DEMAND).meter;
    }
    m
}

pub fn runs(rt: &impl Print) {
    let all = [DEMAND; 1_000_000];
    let more = [DEMAND; 1_000_001];
    run(rt, b"run of 1000000 of 6:", &all);
    run(rt, b"run of 1000001 of 6:", &more);
}

fn run(rt: &impl Print, name: &[u8], demands: &[u16]) {
    report::words(rt, name);
    print_meter(rt, meter_run(bucket(), Factor { p: 1, q: 2 }, demands));
}
