// The depth at a rate with its cause, for an order, as figures.
ghost use Rattle.std.specs.Prelude.{◌≡◌};
ghost use Rattle.terms.specs.Answer.{figure_or, on_figures};
ghost use Rattle.services.specs.Services.{explain_for};
ghost use Rattle.exports.specs.Answers.{cause_numbers, coded};

// The smallest depth that carries an order's trace at a rate, with its cause in the three numbers: 0 for
// nothing, 1 for an opening or 2 for a stretch, then its first and its last period, counted from 1 (0 and
// 0 for nothing); or refusal 1 to 5 of the order, 5 of the rate or 7, and the numbers are as they were.
#[unsafe(no_mangle)]
pub extern "C" fn metqoraz_explain(
    order: &[u8],
    rate: u32,
    cause: &mut u32,
    first: &mut u32,
    last: &mut u32,
) -> u64
    ensures value { result ≡ coded (on_figures (λ x. x.depth) (explain_for rate order.now)) }
    ensures cause_after { cause.new ≡ figure_or (on_figures (λ x. (cause_numbers x.cause).cause) (explain_for rate order.now)) cause.old }
    ensures first_after { first.new ≡ figure_or (on_figures (λ x. (cause_numbers x.cause).first) (explain_for rate order.now)) first.old }
    ensures last_after { last.new ≡ figure_or (on_figures (λ x. (cause_numbers x.cause).last) (explain_for rate order.now)) last.old }
{
    exports::metqoraz_explain(order, rate, cause, first, last)
}
