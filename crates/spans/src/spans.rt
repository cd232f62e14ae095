// Spans of rates, and what a line leaves of one. Public only for the crates above, which show what
// each function requires.
ghost use Rattle.std.specs.Prelude.{◌≤◌, ◌<◌, true, ◌≡◌};
ghost use Rattle.spans.specs.Spans.{Cut, Gone, Kept, Other, SpanRange, line_limit, slope_limit};

use terms::Rate;

// The rates from lo to below hi.
#[derive(Clone, Copy)]
pub struct Span {
    pub lo: u32,
    pub hi: u32,
}

// Without the rates x at either end for which a x + b is above c + d x.
pub fn cut(span: Span, a: u64, b: u64, c: u64, d: u64) -> Span
    requires span_range { SpanRange span }
    requires a_le_slope_limit { a ≤ slope_limit }
    requires b_le_line_limit { b ≤ line_limit }
    requires c_le_line_limit { c ≤ line_limit }
    requires d_le_slope_limit { d ≤ slope_limit }
    ensures { Cut a b c d span result }
{
    if a <= d {
        raised(span, b, c, d - a)
    } else {
        lowered(span, b, c, a - d)
    }
}

// From the first rate x on with b at most c + e x.
fn raised(span: Span, b: u64, c: u64, e: u64) -> Span
    requires span_range { SpanRange span }
    requires b_le_line_limit { b ≤ line_limit }
    requires c_le_line_limit { c ≤ line_limit }
    requires e_le_slope_limit { e ≤ slope_limit }
    ensures { Cut 0 b c e span result }
{
    if b <= c + e * span.lo as u64 {
        return span;
    }
    if c + e * (span.hi as u64) < b {
        return Span {
            lo: span.hi,
            ..span
        };
    }
    let first = (b - c).div_ceil(e);
    Span {
        lo: first as u32,
        ..span
    }
}

// Up to the last rate x with e x + b at most c.
fn lowered(span: Span, b: u64, c: u64, e: u64) -> Span
    requires span_range { SpanRange span }
    requires b_le_line_limit { b ≤ line_limit }
    requires c_le_line_limit { c ≤ line_limit }
    requires e_le_slope_limit { e ≤ slope_limit }
    ensures { Cut e b c 0 span result }
{
    if e * span.hi as u64 + b <= c + e {
        return span;
    }
    if c < e * span.lo as u64 + b {
        return Span {
            hi: span.lo,
            ..span
        };
    }
    let last = (c - b) / e;
    Span {
        hi: last as u32 + 1,
        ..span
    }
}

// Without a rate that is the first.
pub fn without(span: Span, rate: Rate) -> Span
    requires { SpanRange span }
    ensures kept { Kept (Other rate.0) span result }
    ensures gone { Gone rate.0 result }
{
    if span.lo < span.hi && span.lo == rate.0 {
        return Span {
            lo: rate.0 + 1,
            ..span
        };
    }
    span
}

// The first rate of a span, or the one in its middle.
pub fn pick(span: Span, first: bool) -> Rate
    requires { span.lo < span.hi }
    ensures result_lt_hi { result.0 < span.hi }
    ensures result_value { first ≡ true → result.0 ≡ span.lo }
{
    if first {
        return Rate(span.lo);
    }
    Rate(span.lo + (span.hi - span.lo) / 2)
}
