// A tariff, a bucket and its factor, typed as figures that may be out of range.
use crate::numbers::figure;
use terms::{Bucket, Depth, DepthPrice, Factor, Rate, RatePrice, Tariff};

// The first seven figures of a field.
pub fn tariff_of(field: &[u8]) -> Tariff {
    Tariff {
        rate_price: RatePrice(figure(field, 0)),
        depth_price: DepthPrice(figure(field, 1)),
        fee: figure(field, 2),
        factor: Factor {
            p: figure(field, 3),
            q: figure(field, 4),
        },
        rate_cap: Rate(figure(field, 5)),
        depth_cap: Depth(figure(field, 6)),
    }
}

// The first two figures of a field.
pub fn bucket_of(field: &[u8]) -> Bucket {
    Bucket {
        rate: Rate(figure(field, 0)),
        depth: Depth(figure(field, 1)),
    }
}

// The two figures behind a bucket's.
pub fn factor_of(field: &[u8]) -> Factor {
    Factor {
        p: figure(field, 2),
        q: figure(field, 3),
    }
}
