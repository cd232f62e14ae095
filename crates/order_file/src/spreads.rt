// An order read and its trace spread, in one, and demands stored in a lent list. Public only for the
// crates above, whose calls begin with the one and end with the other and show what is required.
ghost use Rattle.std.specs.Prelude.{◌≤◌, ◌≡◌, length};
ghost use Rattle.terms.specs.Answer.{figures};
ghost use Rattle.terms.specs.Lent.{filled};
ghost use Rattle.terms.specs.Refusals.{says};
ghost use Rattle.order_file.specs.Ordered.{SpreadsOrder};

use crate::orders::{Order, read_order, trace_part};
use crate::traces::spread;
use terms::Refusal;

// Reads the order and spreads its trace's part into the demands; or refusal 1 to 6, and the demands
// are as they were.
pub fn spread_order(order: &[u8], demands: &mut [u16]) -> Result<Order, Refusal>
    ensures { SpreadsOrder order.now demands.old demands.new (says result) }
{
    let found = read_order(order)?;
    spread(trace_part(order), demands)?;
    Ok(found)
}

// Stores demands at the front of a list with room for them.
pub fn store_demands(demands: &[u16], list: &mut [u16])
    requires { length demands.now ≤ length list.old }
    ensures { list.new ≡ filled (figures demands.now) list.old }
{
    list[..demands.len()].copy_from_slice(demands);
}
