// An order file written.
ghost use Rattle.std.specs.Prelude.{◌≡◌, length};
ghost use Rattle.terms.specs.Answer.{on_figures};
ghost use Rattle.terms.specs.Lent.{filled};
ghost use Rattle.exports.specs.Answers.{coded, order_from};

use crate::answers::{coded_fill, coded_refusal};
use order_file::write_order;
use terms::{Refusal, periods_in_range};
use typed_figures::figures::{TARIFF_FIGURES, tariff_of};

// Writes an order of these demands into the front of the bytes and answers its length; or refusal 3,
// 5 (another number of figures than the tariff's seven, or one out of its range) or 6, and the bytes
// are as they were.
pub fn metqoraz_order(figures: &[u32], demands: &[u16], bytes: &mut [u8]) -> u64
    ensures value { result ≡ coded (on_figures length (order_from (length bytes.old) figures.now demands.now)) }
    ensures bytes_after { bytes.new ≡ filled (order_from (length bytes.old) figures.now demands.now) bytes.old }
{
    if !periods_in_range(demands.len()) {
        return coded_refusal(Refusal::Periods);
    }
    if figures.len() != TARIFF_FIGURES {
        return coded_refusal(Refusal::Figure);
    }
    coded_fill(write_order(tariff_of(figures), demands, bytes))
}
