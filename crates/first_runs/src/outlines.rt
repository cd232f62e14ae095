// What the search keeps of a cutting, and which of two is kept. Public only for this crate's search
// and for the crate above.
ghost use Rattle.std.specs.Prelude.{◌≡◌};
ghost use Rattle.first_runs.specs.Outline.{ahead, better_choice};

use terms::Rate;

// Stands for the cost where there is no bucket or no cutting. Every cost is below it. A number and no Option:
// the definitions `unpriced` and `no_outline` say it so.
pub const UNPRICED: u64 = 1_000_000_000_000_000_000;

// The cost of a cutting, its buckets and the periods of its first run.
#[derive(Clone, Copy)]
pub struct Outline {
    pub cost: u64,
    pub buckets: u32,
    pub first: u32,
}

// A cutting's outline and the rate of its first run.
#[derive(Clone, Copy)]
pub struct Choice {
    pub outline: Outline,
    pub rate: Rate,
}

// The old one, or the new one where that is preferred.
#[tactic(auto, unfolding(crate::specs::Outline::better_choice))]
pub fn better_of(old: Choice, new: Choice) -> Choice
    ensures { result ≡ better_choice old new }
{
    if is_ahead(new.outline, old.outline) {
        new
    } else {
        old
    }
}

// Whether x is chosen before y: at less cost, or equal cost and fewer buckets, or both equal and a
// longer first run.
fn is_ahead(x: Outline, y: Outline) -> bool
    ensures { result ≡ ahead x y }
{
    (x.cost, x.buckets, y.first) < (y.cost, y.buckets, x.first)
}
