// An order read with its trace spread, as one value. Public for the crates above, whose calls begin with it.
ghost use Rattle.std.specs.Prelude.{◌≡◌};
ghost use Rattle.terms.specs.Limits.{trace_limit};
ghost use Rattle.terms.specs.Refusals.{says};
ghost use Rattle.order_file.specs.Ordered.{ordered};

use crate::orders::Order;
use crate::spreads::spread_order;
use std::marker::Model;
use terms::Refusal;
use terms::limits::TRACE_LIMIT;

// What an order says, with the numbers of its trace at the front of an array.
#[derive(Clone, Copy)]
pub struct Ordered {
    order: Order,
    demands: [u16; TRACE_LIMIT],
}

// Contracts see what the order says and the numbers of its trace. What lies behind these is zeros.
impl Model for Ordered {
    ghost use Rattle.std.specs.Prelude.{◌≤◌, ◌≡◌, drop, length, replicate, take};
    ghost use Rattle.std.proofs.Common.{arith, length-take-le};
    ghost use Rattle.terms.specs.Answer.{figures};
    ghost use Rattle.terms.specs.Lent.{filled};
    ghost use Rattle.terms.specs.LentLaws.{front-fills};
    ghost use Rattle.terms.specs.Limits.{trace_limit};
    ghost use Rattle.order_file.specs.Ordered.{Ordered};

    ghost Value = { Ordered };

    ghost view = { λ a. record { order = a.order; demands = take a.order.periods a.demands } };

    ghost invariant = { λ a. (a.order.periods ≤ trace_limit) × (length a.demands ≡ trace_limit)
        × (drop a.order.periods a.demands ≡ drop a.order.periods (replicate trace_limit 0)) };

    ghost inverse = { λ o. record { order = o.order; demands = filled (figures o.demands) (replicate trace_limit 0) } };

    ghost inverse_ok = { λ a h i. record {
      order = a.order;
      demands = front-fills a.order.periods a.demands _ (omega (arith, h.0, h.1)) h.2 i;
    } };
}

impl Ordered {
    // Reads an order and spreads its trace; or refusal 1 to 5. Not inlined: what reading takes of the stack is free
    // again when the order is used, and so the calls that plan hand their results over in place.
    #[inline(never)]
    pub fn read(order: &[u8]) -> Result<Ordered, Refusal>
        ensures { says result ≡ ordered trace_limit order.now }
    {
        let mut demands = [0u16; TRACE_LIMIT];
        let order = spread_order(order, &mut demands)?;
        Ok(Ordered { order, demands })
    }

    // T and the tariff.
    pub fn order(&self) -> Order
        ensures { result ≡ self.now.order }
    {
        self.order
    }

    // The demands, first period to last.
    pub fn trace(&self) -> &[u16]
        ensures { result.now ≡ self.now.demands }
    {
        &self.demands[..self.order.periods as usize]
    }
}
