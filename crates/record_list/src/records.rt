// The bucket records of a plan: at most as many as the longest trace has periods, in an array with their number.
ghost use Rattle.std.specs.Prelude.{◌<◌, ◌≤◌, ◌≡◌, [], ◌∷◌, ◌++◌, length};
ghost use Rattle.terms.specs.Limits.{trace_limit};

use crate::arrays::blank_records;
use std::marker::Model;
use terms::BucketRecord;
use terms::limits::TRACE_LIMIT;

#[derive(Clone, Copy)]
pub struct Records {
    entries: [BucketRecord; TRACE_LIMIT],
    count: usize,
}

// Contracts see the records, first run to last. What lies behind them is zeros.
impl Model for Records {
    ghost use Rattle.std.specs.Prelude.{◌≤◌, ◌≡◌, drop, length, take};
    ghost use Rattle.std.proofs.Common.{arith, length-take-le};
    ghost use Rattle.terms.specs.Answer.{figures};
    ghost use Rattle.terms.specs.LentLaws.{front-fills};
    ghost use Rattle.terms.specs.Limits.{trace_limit};
    ghost use Rattle.terms.specs.Records.{Cutting};
    ghost use Rattle.record_list.specs.Held.{blank, held};

    ghost Value = { Cutting };

    ghost view = { λ a. take a.count a.entries };

    ghost invariant = { λ a. (a.count ≤ trace_limit) × (length a.entries ≡ trace_limit)
        × (drop a.count a.entries ≡ drop a.count blank) };

    ghost inverse = { λ xs. record { entries = held (figures xs); count = length xs } };

    ghost inverse_ok = { λ a h i. record {
      entries = front-fills a.count a.entries blank (omega (arith, h.0, h.1)) h.2 i;
      count = length-take-le a.count a.entries (omega (arith, h.0, h.1)) i;
    } };
}

impl Records {
    // No records.
    pub fn new() -> Records
        ensures { result ≡ [] }
    {
        let entries = blank_records();
        Records { entries, count: 0 }
    }

    // One record more, behind the others.
    pub fn push(&mut self, x: BucketRecord)
        requires { length self.old < trace_limit }
        ensures { self.new ≡ self.old ++ x ∷ [] }
    {
        self.entries[self.count] = x;
        self.count += 1;
    }

    pub fn as_slice(&self) -> &[BucketRecord]
        ensures items { result.now ≡ self.now }
        ensures few { length result.now ≤ trace_limit }
    {
        &self.entries[..self.count]
    }
}
