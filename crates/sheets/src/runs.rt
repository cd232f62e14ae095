// The lines of a plan's runs, stored in a text. Public only for this crate's calls, which show what is
// required.
ghost use Rattle.std.specs.Prelude.{◌+◌, ◌≤◌, ◌≡◌, length};
ghost use Rattle.terms.specs.RangeRules.{FreshRange, PeriodsRange};
ghost use Rattle.bucket.specs.Trial.{trial_figures};
ghost use Rattle.text.specs.PutLaws.{Puts};
ghost use Rattle.sheets.specs.Sheet.{run_line, run_lines};
ghost use Rattle.sheets.specs.RunLaws.{Printable};

use bucket::trial;
use terms::{Bucket, BucketRecord, Factor};
use text::lines::put_bucket_line;

// The spare of a fresh bucket on a run.
fn spare_of(bucket: Bucket, factor: Factor, run: &[u16]) -> i64
    requires fresh_range { FreshRange bucket factor }
    requires periods_range { PeriodsRange (length run.now) }
    ensures { result ≡ (trial_figures bucket factor run.now).spare }
{
    trial(bucket, factor, run).map_or(0, |figures| figures.spare)
}

// Stores the line of a run that begins at period `first`.
fn put_run(
    text: &mut [u8],
    at: usize,
    factor: Factor,
    first: u32,
    bucket: Bucket,
    run: &[u16],
) -> usize
    requires fresh_range { FreshRange bucket factor }
    requires periods_range { PeriodsRange (length run.now) }
    requires first_bound { first ≤ 512 }
    requires run_in_bounds { at + length (run_line factor first bucket run.now) ≤ length text.old }
    ensures { Puts text.old at (run_line factor first bucket run.now) text.new result }
{
    let spare = spare_of(bucket, factor, run);
    let last = first + run.len() as u32 - 1;
    put_bucket_line(text, at, first, last, bucket, spare)
}

// Stores the lines of a plan's runs.
pub fn put_runs(
    text: &mut [u8],
    at: usize,
    factor: Factor,
    trace: &[u16],
    records: &[BucketRecord],
) -> usize
    requires printable { Printable factor trace.now records.now }
    requires records_in_bounds { at + length (run_lines factor 1 trace.now records.now) ≤ length text.old }
    ensures { Puts text.old at (run_lines factor 1 trace.now records.now) text.new result }
{
    let mut next = at;
    let mut first: u32 = 1;
    let mut rest = trace;
    for &x in records {
        let (run, later) = rest.split_at(x.periods as usize);
        next = put_run(text, next, factor, first, x.bucket, run);
        first += x.periods;
        rest = later;
    }
    next
}
