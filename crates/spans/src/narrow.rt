// What is left of a span of rates once a walk is known. Public only for the crates above, which show
// what each function requires.
ghost use Rattle.std.specs.Prelude.{◌+◌, ◌*◌, ◌≤◌, ◌≡◌};
ghost use Rattle.terms.specs.Limits.{demand_limit, rate_limit, trace_limit};
ghost use Rattle.terms.specs.RangeRules.{FactorRange, TariffRange};
ghost use Rattle.spans.specs.Narrow.{Allows, LineRange, Serving, charge_end};
ghost use Rattle.spans.specs.Parts.{PartsRange};
ghost use Rattle.spans.specs.Spans.{Kept, SpanRange};

use crate::parts::Parts;
use crate::spans::{Span, cut};
use terms::{Factor, Rate, Tariff};

// Above every charge: what a bucket costs in a period, without the fee.
pub const CHARGE_END: u64 = 100_000_000_000;

// A need: at rate x at least sum less x for each of so many periods.
#[derive(Clone, Copy)]
pub struct Line {
    pub sum: u64,
    pub len: u64,
}

// Without the rates at either end at which the parts show every depth inside the cap to be too small
// or to charge as much as `dear`.
pub fn narrow(tariff: Tariff, rate: Rate, parts: Parts, dear: u64, span: Span) -> Span
    requires tariff_range { TariffRange tariff }
    requires rate_le_rate_limit { rate.0 ≤ rate_limit }
    requires parts_range { PartsRange trace_limit parts }
    requires dear_le_charge_end { dear ≤ charge_end }
    requires span_range { SpanRange span }
    ensures { Kept (Serving tariff rate.0 parts dear) span result }
{
    let price = tariff.rate_price.0 as u64;
    let cheap = cut(span, price, 1, dear, 0);
    let held = line_of(parts.walk.stretch, rate, parts.stretch);
    let deep = by_need(tariff, Factor { p: 1, q: 1 }, held, dear, cheap);
    let opened = line_of(parts.walk.opening, rate, parts.opening);
    by_need(tariff, tariff.factor, opened, dear, deep)
}

// The line of a part of so many periods that needs so much at a rate.
fn line_of(need: u32, rate: Rate, len: u32) -> Line
    requires need_bound { need ≤ demand_limit * trace_limit }
    requires rate_le_rate_limit { rate.0 ≤ rate_limit }
    requires len_le_trace_limit { len ≤ trace_limit }
    ensures sum_value { result.sum ≡ need + rate.0 * len }
    ensures len_value { result.len ≡ len }
{
    Line {
        sum: need as u64 + rate.0 as u64 * len as u64,
        len: len as u64,
    }
}

// … with a need that a bucket must hold when it has p / q of its depth.
fn by_need(tariff: Tariff, factor: Factor, need: Line, dear: u64, span: Span) -> Span
    requires tariff_range { TariffRange tariff }
    requires factor_range { FactorRange factor }
    requires line_range { LineRange need }
    requires dear_le_charge_end { dear ≤ charge_end }
    requires span_range { SpanRange span }
    ensures { Kept (Allows tariff factor need dear) span result }
{
    if span.hi <= span.lo {
        return span;
    }
    let p = factor.p as u64;
    let q = factor.q as u64;
    let price = p * tariff.rate_price.0 as u64;
    let deep = tariff.depth_price.0 as u64 * q;
    let cheap = cut(span, price, deep * need.sum + p, p * dear, deep * need.len);
    cut(
        cheap,
        0,
        q * need.sum,
        p * tariff.depth_cap.0 as u64,
        q * need.len,
    )
}
