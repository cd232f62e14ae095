// A meter over a list of offers.
ghost use Rattle.std.specs.Prelude.{◌≡◌, length};
ghost use Rattle.terms.specs.Answer.{on_figures};
ghost use Rattle.terms.specs.Lent.{filled};
ghost use Rattle.single.specs.Single.{bucket_of};
ghost use Rattle.exports.specs.Answers.{coded, factor_of, meter_figures, meter_in};

// Opens a meter on a fresh bucket and offers it the list, first to last: tokens held, periods, sent,
// over and lost fill the front of the totals, and the periods are answered; or refusal 5, 6 (fewer than
// five totals) or 9 (more offers than a meter takes), and the totals are as they were.
#[unsafe(no_mangle)]
pub extern "C" fn metqoraz_meter(
    rate: u32,
    depth: u32,
    p: u32,
    q: u32,
    offers: &[u16],
    totals: &mut [u64],
) -> u64
    ensures value { result ≡ coded (on_figures (λ m. m.periods) (meter_in (length totals.old) (bucket_of rate depth) (factor_of p q) offers.now)) }
    ensures totals_after { totals.new ≡ filled (on_figures meter_figures (meter_in (length totals.old) (bucket_of rate depth) (factor_of p q) offers.now)) totals.old }
{
    exports::metqoraz_meter(rate, depth, p, q, offers, totals)
}
