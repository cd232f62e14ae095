// A plan file checked against an order file.
ghost use Rattle.std.specs.Prelude.{◌≡◌};
ghost use Rattle.terms.specs.Refusals.{says};
ghost use Rattle.checking.specs.Check.{check_of};

use crate::verdicts::{Verdict, judge};
use order_file::ordered::Ordered;
use plan_file::reading::read_records;
use terms::Refusal;
use terms::limits::TRACE_LIMIT;

// Yes with the excess, or no; or a refusal: 1 to 5 as reading the order gives it, 1 to 5 as reading the
// plan gives it, or 10 where they have different numbers of periods.
pub fn check(order: &[u8], plan: &[u8]) -> Result<Verdict, Refusal>
    ensures { says result ≡ check_of order.now plan.now }
{
    let order = Ordered::read(order)?;
    let stated = read_records(plan, TRACE_LIMIT)?;
    if stated.periods != order.order().periods {
        return Err(Refusal::Unequal);
    }
    Ok(judge(order.trace(), order.order().tariff, &stated))
}
