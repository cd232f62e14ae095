// The figures of an order in the order in which they are typed, the seven of the tariff and then the
// demands, and the tariff that they give. Public only for the crates above, which show what is required.
ghost use Rattle.std.specs.Prelude.{◌≤◌, ◌≡◌, length};
ghost use Rattle.typed_figures.specs.Figures.{factor_stands, tariff_figures, tariff_of};

use terms::limits::TRACE_LIMIT;
use terms::{Depth, DepthPrice, Factor, Rate, RatePrice, Tariff, factor_in_range};

// The figures of the tariff.
pub const TARIFF_FIGURES: usize = 7;

// The places of p and q among them.
pub const P_INDEX: usize = 3;

const Q_INDEX: usize = 4;

// The figures of an order at the most.
pub const FIGURES_LIMIT: usize = TARIFF_FIGURES + TRACE_LIMIT;

// Whether the figure that ends leaves a factor: where it is q, the figure before it is p.
pub fn factor_stands(index: usize, p: u32, q: u32) -> bool
    ensures { result ≡ factor_stands index p q }
{
    (index != Q_INDEX) | factor_in_range(Factor { p, q })
}

// The tariff of the seven figures.
pub fn tariff_of(figures: &[u32]) -> Tariff
    requires { tariff_figures ≤ length figures.now }
    ensures { result ≡ tariff_of figures.now }
{
    Tariff {
        rate_price: RatePrice(figures[0]),
        depth_price: DepthPrice(figures[1]),
        fee: figures[2],
        factor: Factor {
            p: figures[3],
            q: figures[4],
        },
        rate_cap: Rate(figures[5]),
        depth_cap: Depth(figures[6]),
    }
}
