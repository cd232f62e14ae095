// The bucket records of a plan, in a file and in a list. Public only for this crate's calls, which
// show what is required.
ghost use Rattle.std.specs.Prelude.{◌+◌, ◌*◌, ◌≤◌, ◌≡◌, length};
ghost use Rattle.std.proofs.lemmas.List.Edits.{sets};
ghost use Rattle.terms.specs.Limits.{trace_limit};
ghost use Rattle.terms.specs.Records.{record_of};
ghost use Rattle.encoding.specs.Number.{bytes_of_all};
ghost use Rattle.plan_file.specs.Plan.{plan_length, record_at, record_bytes, records_in, records_ok};

use crate::layout::{BUCKETS_OFFSET, RECORD_BYTES};
use encoding::numbers::{put_words, word_at};
use record_list::records::Records;
use terms::{Bucket, BucketRecord, Depth, Rate, record_in_range};

// The record at a place of a file.
fn record_at(bytes: &[u8], at: usize) -> BucketRecord
    requires { at + 12 ≤ length bytes.now }
    ensures { result ≡ record_at bytes.now at }
{
    record_of(
        word_at(bytes, at),
        word_at(bytes, at + 4),
        word_at(bytes, at + 8),
    )
}

fn record_of(periods: u32, rate: u32, depth: u32) -> BucketRecord
    ensures { result ≡ record_of periods rate depth }
{
    let bucket = Bucket {
        rate: Rate(rate),
        depth: Depth(depth),
    };
    BucketRecord { periods, bucket }
}

// Whether each record is in its range and the run lengths sum to T, in more than 32 bits.
#[tactic(auto, using(crate::proofs::Weighing::weighing))]
pub fn records_in_range(periods: u32, records: &[BucketRecord]) -> bool
    requires { length records.now ≤ trace_limit }
    ensures { result ≡ records_ok periods records.now }
{
    let mut sum: u64 = 0;
    for &x in records {
        if !record_in_range(x) {
            return false;
        }
        sum += x.periods as u64;
    }
    sum == periods as u64
}

// The records of a file.
#[tactic(auto, using(crate::proofs::Loading::loading))]
pub fn load_records(bytes: &[u8], buckets: usize) -> Records
    requires buckets_in_bounds { plan_length buckets ≤ length bytes.now }
    requires buckets_le_trace_limit { buckets ≤ trace_limit }
    ensures { result ≡ records_in buckets bytes.now }
{
    let mut records = Records::new();
    // by the number: record_at takes the place of a record, and not its bytes
    for i in 0..buckets {
        let x = record_at(bytes, BUCKETS_OFFSET + RECORD_BYTES * i);
        records.push(x);
    }
    records
}

// Stores the bytes of the records from `at` on.
pub fn put_records(bytes: &mut [u8], at: usize, records: &[BucketRecord])
    requires { at + 12 * length records.now ≤ length bytes.old }
    ensures { bytes.new ≡ sets bytes.old at (bytes_of_all record_bytes records.now) }
{
    let mut next = at;
    for &x in records {
        let words = [x.periods, x.bucket.rate.0, x.bucket.depth.0];
        put_words(bytes, next, &words);
        next += RECORD_BYTES;
    }
}
