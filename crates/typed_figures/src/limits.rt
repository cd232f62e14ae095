// The most that each figure of an order may be.
ghost use Rattle.std.specs.Prelude.{◌≡◌};
ghost use Rattle.typed_figures.specs.Figures.{limit_of};

use terms::limits::{DEMAND_LIMIT, DEPTH_LIMIT, FEE_LIMIT, PARTS_LIMIT, PRICE_LIMIT, RATE_LIMIT};

// The most that a figure may be: index 0 is the rate price, and from 7 on stand the demands.
pub fn limit_of(index: usize) -> u32
    ensures { result ≡ limit_of index }
{
    match index {
        0 | 1 => PRICE_LIMIT,
        2 => FEE_LIMIT,
        3 | 4 => PARTS_LIMIT,
        5 => RATE_LIMIT,
        6 => DEPTH_LIMIT,
        _ => DEMAND_LIMIT as u32,
    }
}
