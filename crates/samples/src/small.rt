// The small cases: demands of 0 to 4, and tariffs of five factors, three rate caps, three depth
// caps and four price lists.
use crate::tariffs;
use crate::tariffs::{Prices, caps_of, prices_of};
use terms::{Factor, Tariff};

// A small tariff: one of four price lists, and a fee and caps of one byte.
#[derive(Clone, Copy)]
pub struct Small {
    pub prices: u8,
    pub fee: u8,
    pub factor: Factor,
    pub rate_cap: u8,
    pub depth_cap: u8,
}

// A demand of 0 to 4.
pub fn demand(n: u32) -> u16 {
    (n % 5) as u16
}

// Four demands of 0 to 4: number n of 625.
pub fn demands(n: u32) -> [u16; 4] {
    [demand(n), demand(n / 5), demand(n / 25), demand(n / 125)]
}

// A tariff with some fee: number n of 180.
pub fn small_tariff(n: u32, fee: u8) -> Small {
    Small {
        prices: (n / 45 % 4) as u8,
        fee,
        factor: factor(n % 5),
        rate_cap: (n / 5 % 3 * 2) as u8,
        depth_cap: depth_cap(n / 15 % 3),
    }
}

fn factor(n: u32) -> Factor {
    match n {
        0 => Factor { p: 0, q: 1 },
        1 => Factor { p: 1, q: 1 },
        2 => Factor { p: 1, q: 2 },
        3 => Factor { p: 2, q: 3 },
        _ => Factor { p: 1, q: 3 },
    }
}

fn depth_cap(n: u32) -> u8 {
    match n {
        0 => 0,
        1 => 3,
        _ => 9,
    }
}

// The tariff that a call is given.
pub fn tariff_of(small: Small) -> Tariff {
    tariffs::tariff_of(
        price_list(small.prices, small.fee as u32),
        small.factor,
        caps_of(small.rate_cap as u32, small.depth_cap as u32),
    )
}

fn price_list(n: u8, fee: u32) -> Prices {
    match n {
        0 => prices_of(0, 0, fee),
        1 => prices_of(2, 1, fee),
        2 => prices_of(1, 1, fee),
        _ => prices_of(7, 5, fee),
    }
}
