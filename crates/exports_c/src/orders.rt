// An order file written.
ghost use Rattle.std.specs.Prelude.{◌≡◌, length};
ghost use Rattle.terms.specs.Answer.{on_figures};
ghost use Rattle.terms.specs.Lent.{filled};
ghost use Rattle.exports.specs.Answers.{coded, order_from};

// Writes an order of these demands into the front of the bytes and answers its length; or refusal 3,
// 5 (another number of figures than the tariff's seven, or one out of its range) or 6, and the bytes
// are as they were.
#[unsafe(no_mangle)]
pub extern "C" fn metqoraz_order(figures: &[u32], demands: &[u16], bytes: &mut [u8]) -> u64
    ensures value { result ≡ coded (on_figures length (order_from (length bytes.old) figures.now demands.now)) }
    ensures bytes_after { bytes.new ≡ filled (order_from (length bytes.old) figures.now demands.now) bytes.old }
{
    exports::metqoraz_order(figures, demands, bytes)
}
