// The answers of the calls on files; each leaves its line open.
use crate::{figure, refusal};
use order_file::Order;
use plan_file::PlanFigures;
use terms::{Refusal, Tariff};

// How many entries or bytes were filled, or the refusal.
pub fn fill(rt: &impl Print, a: Result<usize, Refusal>) {
    match a {
        Ok(n) => figure(rt, b" filled", n as u64),
        Err(x) => refusal(rt, x),
    }
}

// How many entries or bytes were filled; none on a refusal.
pub fn filled_of(a: Result<usize, Refusal>) -> usize {
    a.unwrap_or(0)
}

// An order's number of periods and its tariff, or the refusal.
pub fn order(rt: &impl Print, a: Result<Order, Refusal>) {
    match a {
        Ok(x) => {
            figure(rt, b" periods", x.periods as u64);
            tariff(rt, x.tariff);
        }
        Err(x) => refusal(rt, x),
    }
}

// The seven figures, in document 01's order.
pub fn tariff(rt: &impl Print, t: Tariff) {
    figure(rt, b" rate price", t.rate_price.0 as u64);
    figure(rt, b" depth price", t.depth_price.0 as u64);
    figure(rt, b" fee", t.fee as u64);
    figure(rt, b" p", t.factor.p as u64);
    figure(rt, b" q", t.factor.q as u64);
    figure(rt, b" rate cap", t.rate_cap.0 as u64);
    figure(rt, b" depth cap", t.depth_cap.0 as u64);
}

// A plan's number of periods, its number of buckets and its cost, or the refusal.
pub fn plan(rt: &impl Print, a: Result<PlanFigures, Refusal>) {
    match a {
        Ok(x) => {
            figure(rt, b" periods", x.periods as u64);
            figure(rt, b" buckets", x.buckets as u64);
            figure(rt, b" cost", x.cost);
        }
        Err(x) => refusal(rt, x),
    }
}
