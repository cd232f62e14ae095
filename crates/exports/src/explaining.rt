// The depth at a rate with its cause, for an order, as figures.
ghost use Rattle.std.specs.Prelude.{◌≡◌};
ghost use Rattle.terms.specs.Answer.{figure_or, on_figures};
ghost use Rattle.causes.specs.Cause.{cause_says};
ghost use Rattle.services.specs.Services.{explain_for};
ghost use Rattle.exports.specs.Answers.{cause_numbers, coded};

use crate::answers::coded_refusal;
use causes::Cause;
use services::figures::explain_for;
use terms::Rate;

// A cause as numbers: 0 for nothing, 1 for an opening, 2 for a stretch; and its first and last period,
// both 0 for nothing.
#[derive(Clone, Copy)]
struct CauseNumbers {
    cause: u32,
    first: u32,
    last: u32,
}

// The smallest depth that carries an order's trace at a rate, with its cause in the three numbers: 0 for
// nothing, 1 for an opening or 2 for a stretch, then its first and its last period, counted from 1 (0 and
// 0 for nothing); or refusal 1 to 5 of the order, 5 of the rate or 7, and the numbers are as they were.
pub fn metqoraz_explain(
    order: &[u8],
    rate: u32,
    cause: &mut u32,
    first: &mut u32,
    last: &mut u32,
) -> u64
    ensures value { result ≡ coded (on_figures (λ x. x.depth) (explain_for rate order.now)) }
    ensures cause_after { cause.new ≡ figure_or (on_figures (λ x. (cause_numbers x.cause).cause) (explain_for rate order.now)) cause.old }
    ensures first_after { first.new ≡ figure_or (on_figures (λ x. (cause_numbers x.cause).first) (explain_for rate order.now)) first.old }
    ensures last_after { last.new ≡ figure_or (on_figures (λ x. (cause_numbers x.cause).last) (explain_for rate order.now)) last.old }
{
    let explained = match explain_for(order, Rate(rate)) {
        Ok(x) => x,
        Err(why) => return coded_refusal(why),
    };
    let named = explained.cause;
    let numbers = numbers_of(named);
    *cause = numbers.cause;
    *first = numbers.first;
    *last = numbers.last;
    explained.depth.0 as u64
}

fn numbers_of(cause: Cause) -> CauseNumbers
    ensures { result ≡ cause_numbers (cause_says cause) }
{
    match cause {
        Cause::Nothing => CauseNumbers {
            cause: 0,
            first: 0,
            last: 0,
        },
        Cause::Opening(x) => CauseNumbers {
            cause: 1,
            first: 1,
            last: x.periods,
        },
        Cause::Stretch(x) => CauseNumbers {
            cause: 2,
            first: x.first,
            last: x.last,
        },
    }
}
