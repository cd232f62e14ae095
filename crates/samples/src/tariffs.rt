// The printed case's tariff, and tariffs that differ from it.
use terms::{Depth, DepthPrice, Factor, Rate, RatePrice, Tariff};

// The two prices and the fee of a tariff.
#[derive(Clone, Copy)]
pub struct Prices {
    pub rate: u32,
    pub depth: u32,
    pub fee: u32,
}

// Its caps on rate and depth.
#[derive(Clone, Copy)]
pub struct Caps {
    pub rate: u32,
    pub depth: u32,
}

pub fn tariff_of(prices: Prices, factor: Factor, caps: Caps) -> Tariff {
    Tariff {
        rate_price: RatePrice(prices.rate),
        depth_price: DepthPrice(prices.depth),
        fee: prices.fee,
        factor,
        rate_cap: Rate(caps.rate),
        depth_cap: Depth(caps.depth),
    }
}

pub fn prices_of(rate: u32, depth: u32, fee: u32) -> Prices {
    Prices { rate, depth, fee }
}

pub fn caps_of(rate: u32, depth: u32) -> Caps {
    Caps { rate, depth }
}

// The printed case's prices and fee.
pub fn printed() -> Prices {
    prices_of(2, 1, 4)
}

// The printed case's factor.
pub fn half() -> Factor {
    Factor { p: 1, q: 2 }
}

// The greatest caps that a tariff can have.
pub fn full() -> Caps {
    caps_of(4095, 1_000_000)
}

// The printed case's tariff.
pub fn printed_case() -> Tariff {
    tariff_of(printed(), half(), full())
}

// The same with another fee.
pub fn with_fee(fee: u32) -> Tariff {
    tariff_of(prices_of(2, 1, fee), half(), full())
}
