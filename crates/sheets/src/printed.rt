// The printed sheet, from an order file.
ghost use Rattle.std.specs.Prelude.{◌≡◌, length};
ghost use Rattle.terms.specs.Answer.{on_figures};
ghost use Rattle.terms.specs.Lent.{filled};
ghost use Rattle.terms.specs.Refusals.{says};
ghost use Rattle.encoding.specs.FillLaws.{Fills};
ghost use Rattle.text.specs.Fitted.{fitted};
ghost use Rattle.sheets.specs.Sheet.{sheet_in};
ghost use Rattle.sheets.specs.SheetLaws.{Shown, shown_text};

use crate::plan_sheets::{LONGEST_SHEET, put_sheet};
use planning::planned_orders::{PlannedOrder, plan_order};
use terms::Refusal;
use terms::limits::TRACE_LIMIT;
use text::fills::fill;

// Writes the sheet of an order into the front of the text and answers its length; or a refusal, and
// the text is as it was: 1 to 5 as reading the order gives it, 7 (no cutting) or 6 (the text is
// shorter than the sheet).
pub fn sheet(order: &[u8], text: &mut [u8]) -> Result<usize, Refusal>
    ensures result_value { says result ≡ on_figures length (sheet_in (length text.old) order.now) }
    ensures text_after { text.new ≡ filled (sheet_in (length text.old) order.now) text.old }
{
    match plan_order(order, TRACE_LIMIT, TRACE_LIMIT) {
        Ok(planned) => fill_sheet(&planned, text),
        Err(x) => Err(x.why),
    }
}

// Puts the sheet of a plan together and stores it. Not inlined: the room for the text is taken once the plan is found,
// so that no call takes more stack than include/metqoraz.h says.
#[inline(never)]
fn fill_sheet(planned: &PlannedOrder, text: &mut [u8]) -> Result<usize, Refusal>
    requires { Shown planned.now }
    ensures { Fills (fitted (length text.old) (shown_text planned.now)) text.old (says result) text.new }
{
    let mut ready = [0u8; LONGEST_SHEET];
    let length = put_sheet(&mut ready, planned);
    fill(&ready[..length], text)
}
