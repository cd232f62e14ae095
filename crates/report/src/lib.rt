// What the test programs print, a field at a time. For them alone: no contract can say what a
// program writes, so each program's output is held to a stored one.
#![tactic(auto)]

mod file_answers;
mod file_bytes;
mod lent_lists;

use bucket::TrialFigures;
use causes::{Cause, Explained};
pub use file_answers::{fill, filled_of, order, plan, tariff};
pub use file_bytes::{hex_lines, written};
pub use lent_lists::{kept, list};
use series::Plan;
use single::Priced;
use terms::{Bucket, BucketRecord, Depth, Refusal};

// Words as they stand.
pub fn words(rt: &impl Print, text: &[u8]) {
    let _ = rt.write_all(text);
}

// A space and a number.
pub fn number(rt: &impl Print, n: u64) {
    let _ = print!(rt; " {n}");
}

// What a number is, and the number.
pub fn figure(rt: &impl Print, name: &[u8], n: u64) {
    words(rt, name);
    number(rt, n);
}

// A space and a signed number.
pub fn signed(rt: &impl Print, z: i64) {
    let _ = print!(rt; " {z}");
}

pub fn end_line(rt: &impl Print) {
    words(rt, b"\n");
}

// A line with the number of cases, and in how many of them a call agrees with what is plain.
pub fn agreement<F: Fn(u32) -> bool>(rt: &impl Print, cases: u32, agrees: F)
    requires { F.IsAlwaysCallable agrees }
{
    let agreed = (0..cases).filter(|&n| agrees(n)).count();
    figure(rt, b"cases", cases as u64);
    figure(rt, b" agreed", agreed as u64);
    end_line(rt);
}

// The word refused and the number.
pub fn refusal(rt: &impl Print, x: Refusal) {
    figure(rt, b" refused", u32::from(x) as u64);
}

// Spare and discards, or the refusal.
pub fn trial(rt: &impl Print, a: Result<TrialFigures, Refusal>) {
    match a {
        Ok(t) => {
            words(rt, b" spare");
            signed(rt, t.spare);
            figure(rt, b" over", t.over as u64);
        }
        Err(x) => refusal(rt, x),
    }
    end_line(rt);
}

// What a meter sent, discarded, lost and holds; the line goes on.
pub fn totals(rt: &impl Print, sent: u64, over: u64, lost: u64, held: u64) {
    figure(rt, b" sent", sent);
    figure(rt, b" over", over);
    figure(rt, b" lost", lost);
    figure(rt, b" tokens", held);
}

// The depth, or the refusal.
pub fn depth(rt: &impl Print, a: Result<Depth, Refusal>) {
    match a {
        Ok(b) => figure(rt, b" depth", b.0 as u64),
        Err(x) => refusal(rt, x),
    }
    end_line(rt);
}

// The depth and its cause, or the refusal.
pub fn explained(rt: &impl Print, a: Result<Explained, Refusal>) {
    match a {
        Ok(x) => {
            let set_by = x.cause;
            figure(rt, b" depth", x.depth.0 as u64);
            cause(rt, set_by);
        }
        Err(x) => refusal(rt, x),
    }
    end_line(rt);
}

fn cause(rt: &impl Print, x: Cause) {
    match x {
        Cause::Nothing => words(rt, b" nothing"),
        Cause::Opening(o) => figure(rt, b" opening", o.periods as u64),
        Cause::Stretch(s) => {
            figure(rt, b" stretch", s.first as u64);
            number(rt, s.last as u64);
        }
    }
}

// The bucket and its cost, or the refusal.
pub fn single(rt: &impl Print, a: Result<Priced, Refusal>) {
    match a {
        Ok(x) => {
            bucket(rt, x.bucket);
            figure(rt, b" cost", x.cost);
        }
        Err(x) => refusal(rt, x),
    }
    end_line(rt);
}

// A plan's number of buckets and its cost, or the refusal; the line goes on.
pub fn series(rt: &impl Print, a: Result<Plan, Refusal>) {
    match a {
        Ok(plan) => {
            figure(rt, b" buckets", plan.buckets as u64);
            figure(rt, b" cost", plan.cost);
        }
        Err(x) => refusal(rt, x),
    }
}

// One bucket of a plan and the length of its run.
pub fn record(rt: &impl Print, x: BucketRecord) {
    figure(rt, b" run", x.periods as u64);
    bucket(rt, x.bucket);
}

fn bucket(rt: &impl Print, x: Bucket) {
    figure(rt, b" rate", x.rate.0 as u64);
    figure(rt, b" depth", x.depth.0 as u64);
}
