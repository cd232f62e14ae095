// A meter's record: from figures, printed, and offered the least and the greatest demand.
use cases::{bucket_of, factor_of, figure, large};
use meter::Meter;
use terms::Refusal;

// The bucket, its factor, the tokens held, the periods, and what was sent, over and lost.
pub fn meter(field: &[u8]) -> Meter {
    let bucket = bucket_of(field);
    let factor = factor_of(field);
    Meter {
        bucket,
        factor,
        held: figure(field, 4),
        periods: figure(field, 5),
        sent: large(field, 6),
        over: large(field, 7),
        lost: large(field, 8),
    }
}

// A meter's record, or the refusal, to the end of the line.
pub fn print_meter(rt: &impl Print, a: Result<Meter, Refusal>) {
    match a {
        Ok(m) => figures(rt, m),
        Err(x) => report::refusal(rt, x),
    }
    report::end_line(rt);
}

pub fn figures(rt: &impl Print, m: Meter) {
    report::figure(rt, b" tokens", m.held as u64);
    report::figure(rt, b" periods", m.periods as u64);
    report::figure(rt, b" sent", m.sent);
    report::figure(rt, b" over", m.over);
    report::figure(rt, b" lost", m.lost);
}

// The least and the greatest offer, each to the same record.
pub fn offers(rt: &impl Print, edge: &[u8], m: Meter) {
    offering(rt, edge, m, 0);
    offering(rt, edge, m, 65_535);
}

fn offering(rt: &impl Print, edge: &[u8], m: Meter, demand: u16) {
    report::figure(rt, b"offer", demand as u64);
    report::words(rt, b" to ");
    report::words(rt, edge);
    report::words(rt, b":");
    let o = meter::offer(m, demand);
    let next = o.meter;
    let answer = o.answer;
    match answer {
        Ok(_) => figures(rt, next),
        Err(x) => {
            report::refusal(rt, x);
            if !same(m, next) {
                report::words(rt, b" and changed the record");
            }
        }
    }
    report::end_line(rt);
}

fn same(a: Meter, b: Meter) -> bool {
    (a.bucket.rate.0 == b.bucket.rate.0)
        & (a.bucket.depth.0 == b.bucket.depth.0)
        & (a.factor.p == b.factor.p)
        & (a.factor.q == b.factor.q)
        & (a.held == b.held)
        & (a.periods == b.periods)
        & (a.sent == b.sent)
        & (a.over == b.over)
        & (a.lost == b.lost)
}
