// The first records of an array lent to a call. Public only for this crate, which shows that the array
// has as many.
ghost use Rattle.std.specs.Prelude.{◌≤◌};

use booking::book;
use lent_plans::{PlanFigures, read_plan, series, write_plan};
use recording::Booking;
use samples::lent_records::ENTRIES;
use series::Plan;
use terms::{BucketRecord, Refusal, Tariff};

// What the series call answers, and the list afterwards.
#[derive(Clone, Copy)]
pub struct SeriesLent {
    pub answer: Result<Plan, Refusal>,
    pub list: [BucketRecord; ENTRIES],
}

pub fn series_in(
    trace: &[u16],
    tariff: Tariff,
    list: [BucketRecord; ENTRIES],
    entries: usize,
) -> SeriesLent
    requires { entries ≤ 516 }
{
    let mut lent = list;
    let answer = series(trace, tariff, &mut lent[..entries]);
    SeriesLent { answer, list: lent }
}

// What plan reading answers, and the list afterwards.
#[derive(Clone, Copy)]
pub struct ReadLent {
    pub answer: Result<PlanFigures, Refusal>,
    pub list: [BucketRecord; ENTRIES],
}

pub fn read_in(bytes: &[u8], list: [BucketRecord; ENTRIES], entries: usize) -> ReadLent
    requires { entries ≤ 516 }
{
    let mut lent = list;
    let answer = read_plan(bytes, &mut lent[..entries]);
    ReadLent { answer, list: lent }
}

pub fn write_in(
    plan: PlanFigures,
    list: [BucketRecord; ENTRIES],
    entries: usize,
    bytes: &mut [u8],
) -> Result<usize, Refusal>
    requires { entries ≤ 516 }
{
    write_plan(plan, &list[..entries], bytes)
}

// What booking answers, and the lists planned and read into afterwards.
#[derive(Clone, Copy)]
pub struct BookLent {
    pub answer: Result<Booking, Refusal>,
    pub plan: [BucketRecord; ENTRIES],
    pub back: [BucketRecord; ENTRIES],
}

pub fn book_in(
    order: &[u8],
    demands: &mut [u16],
    plan: [BucketRecord; ENTRIES],
    planned: usize,
    bytes: &mut [u8],
    back: [BucketRecord; ENTRIES],
    read: usize,
) -> BookLent
    requires { (planned ≤ 516) × (read ≤ 516) }
{
    let mut plan_lent = plan;
    let mut back_lent = back;
    let answer = book(
        order,
        demands,
        &mut plan_lent[..planned],
        bytes,
        &mut back_lent[..read],
    );
    BookLent {
        answer,
        plan: plan_lent,
        back: back_lent,
    }
}
