// A plan file checked against an order file.
ghost use Rattle.std.specs.Prelude.{◌≡◌};
ghost use Rattle.terms.specs.Answer.{on_figures};
ghost use Rattle.checking.specs.Check.{check_of};
ghost use Rattle.exports.specs.Answers.{coded, excess_or, verdict_code};

use crate::answers::coded_refusal;
use checking::{Verdict, check};

// Answers 1 for a plan that holds, with its excess in the number; 0 for one that does not; or refusal 1
// to 5 of the order, 1 to 5 of the plan or 10. But for a yes the number is as it was.
pub fn metqoraz_check(order: &[u8], plan: &[u8], excess: &mut u64) -> u64
    ensures value { result ≡ coded (on_figures verdict_code (check_of order.now plan.now)) }
    ensures excess_after { excess.new ≡ excess_or (check_of order.now plan.now) excess.old }
{
    match check(order, plan) {
        Ok(Verdict::Yes(found)) => {
            *excess = found;
            1
        }
        Ok(Verdict::No) => 0,
        Err(why) => coded_refusal(why),
    }
}
