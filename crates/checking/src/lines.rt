// The check as a line of text, of two files or of one behind the other.
ghost use Rattle.std.specs.Prelude.{◌≡◌, length};
ghost use Rattle.terms.specs.Answer.{on_figures};
ghost use Rattle.terms.specs.Lent.{filled};
ghost use Rattle.terms.specs.Refusals.{says};
ghost use Rattle.encoding.specs.FillLaws.{Fills};
ghost use Rattle.text.specs.Fitted.{fitted};
ghost use Rattle.text.specs.Lines.{yes_line};
ghost use Rattle.checking.specs.Check.{check_files, check_in};

use crate::checks::check;
use crate::verdicts::Verdict;
use order_file::order_end;
use terms::Refusal;
use text::fills::fill;
use text::lines::put_yes_line;

// The bytes of the longest line of a check, of any excess of its type.
pub const LONGEST_VERDICT: usize = 25;

// Writes the line of a check of a plan for an order into the front of the text and answers its length;
// or a refusal, and the text is as it was: 1 to 5 as reading the order gives it, 1 to 5 as reading the
// plan gives it, 10 (different numbers of periods) or 6 (the text is shorter than the line).
pub fn check_line(order: &[u8], plan: &[u8], text: &mut [u8]) -> Result<usize, Refusal>
    ensures result_value { says result ≡ on_figures length (check_in (length text.old) order.now plan.now) }
    ensures text_after { text.new ≡ filled (check_in (length text.old) order.now plan.now) text.old }
{
    match check(order, plan)? {
        Verdict::Yes(excess) => yes_line(excess, text),
        Verdict::No => fill(b"no\n", text),
    }
}

// The line of a plan that holds, where it fits.
fn yes_line(excess: u64, text: &mut [u8]) -> Result<usize, Refusal>
    ensures { Fills (fitted (length text.old) (yes_line excess)) text.old (says result) text.new }
{
    let mut ready = [0u8; LONGEST_VERDICT];
    let length = put_yes_line(&mut ready, 0, excess);
    fill(&ready[..length], text)
}

// The same of the order at the front of the files and of the plan, which is all that follows it.
pub fn check_files(files: &[u8], text: &mut [u8]) -> Result<usize, Refusal>
    ensures result_value { says result ≡ on_figures length (check_files (length text.old) files.now) }
    ensures text_after { text.new ≡ filled (check_files (length text.old) files.now) text.old }
{
    let end = order_end(files);
    check_line(&files[..end], &files[end..], text)
}
