// Which of two buckets is chosen.
ghost use Rattle.std.specs.Prelude.{◌≡◌};
ghost use Rattle.terms.specs.Answer.{figures};
ghost use Rattle.terms.specs.Refusals.{says};
ghost use Rattle.single.specs.Preference.{preferred};
ghost use Rattle.single.specs.Single.{better};

use crate::costs::Priced;
use terms::Refusal;

// Whether x is chosen before y: at less cost, or equal cost and a smaller rate, or both equal and
// a smaller depth.
pub fn is_preferred(x: Priced, y: Priced) -> bool
    ensures { result ≡ preferred x y }
{
    let a = x.bucket;
    let b = y.bucket;
    (x.cost, a.rate.0, a.depth.0) < (y.cost, b.rate.0, b.depth.0)
}

// What was found so far, or the new bucket where that is preferred.
pub fn better_of(old: Result<Priced, Refusal>, new: Priced) -> Result<Priced, Refusal>
    ensures { says result ≡ better (says old) (figures new) }
{
    match old {
        Ok(x) if !is_preferred(new, x) => old,
        _ => Ok(new),
    }
}
