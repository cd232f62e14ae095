// The sheet of a plan found for an order. Public only for this crate's calls, which show what is
// required.
ghost use Rattle.std.specs.Prelude.{◌≡◌, length};
ghost use Rattle.text.specs.PutLaws.{Puts};
ghost use Rattle.sheets.specs.LengthLaws.{longest_sheet};
ghost use Rattle.sheets.specs.SheetLaws.{Shown, shown_text};

use crate::runs::put_runs;
use planning::planned_orders::PlannedOrder;
use terms::limits::TRACE_LIMIT;
use text::lines::put_plan_line;

// The bytes of the longest first line.
pub const LONGEST_FIRST_LINE: usize = 29;

// The bytes of the longest line of a bucket.
pub const LONGEST_BUCKET_LINE: usize = 32;

// The bytes of the longest sheet.
pub const LONGEST_SHEET: usize = LONGEST_FIRST_LINE + LONGEST_BUCKET_LINE * TRACE_LIMIT;

// Stores a plan's sheet at the front of a text.
pub fn put_sheet(text: &mut [u8], planned: &PlannedOrder) -> usize
    requires shown { Shown planned.now }
    requires text_len { length text.old ≡ longest_sheet }
    ensures { Puts text.old 0 (shown_text planned.now) text.new result }
{
    let order = planned.order.order();
    let plan = planned.plan;
    let lines = put_plan_line(text, 0, order.periods, plan.buckets, plan.cost);
    let trace = planned.order.trace();
    let records = planned.records.as_slice();
    put_runs(text, lines, order.tariff.factor, trace, records)
}
