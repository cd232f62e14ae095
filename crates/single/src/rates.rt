// The candidate rates: those that have to be weighed. Public only for this crate's search and for
// the crates above, which show what is required.
ghost use Rattle.std.specs.Prelude.{◌≡◌};
ghost use Rattle.terms.specs.RangeRules.{TariffRange};
ghost use Rattle.single.specs.Rates.{greatest, weighed};

use terms::Tariff;

// How many rates, from 0 on, have to be weighed: up to the rate cap, and none above the greatest
// demand.
pub fn rates_to_weigh(trace: &[u16], tariff: Tariff) -> u32
    requires { TariffRange tariff }
    ensures { result ≡ weighed tariff trace.now }
{
    tariff.rate_cap.0.min(greatest_demand(trace)) + 1
}

#[tactic(auto, unfolding(crate::specs::Rates::greatest))]
fn greatest_demand(trace: &[u16]) -> u32
    ensures { result ≡ greatest trace.now }
{
    let mut top: u32 = 0;
    for &demand in trace {
        top = top.max(demand as u32);
    }
    top
}
