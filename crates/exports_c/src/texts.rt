// The services that are text, from an order file: the trial, the single bucket and the sheet.
ghost use Rattle.std.specs.Prelude.{◌≡◌, length};
ghost use Rattle.terms.specs.Answer.{on_figures};
ghost use Rattle.terms.specs.Lent.{filled};
ghost use Rattle.services.specs.Services.{single_in, trial_in};
ghost use Rattle.sheets.specs.Sheet.{sheet_in};
ghost use Rattle.single.specs.Single.{bucket_of};
ghost use Rattle.exports.specs.Answers.{coded};

// Writes the line of a trial of a bucket on an order's trace into the front of the text and answers
// its length; or refusal 1 to 5 of the order, 5 of the bucket or 6, and the text is as it was.
#[unsafe(no_mangle)]
pub extern "C" fn metqoraz_trial_line(order: &[u8], rate: u32, depth: u32, text: &mut [u8]) -> u64
    ensures value { result ≡ coded (on_figures length (trial_in (length text.old) (bucket_of rate depth) order.now)) }
    ensures text_after { text.new ≡ filled (trial_in (length text.old) (bucket_of rate depth) order.now) text.old }
{
    exports::metqoraz_trial_line(order, rate, depth, text)
}

// Writes the line of the single bucket for an order into the front of the text and answers its
// length; or refusal 1 to 5 of the order, 7 or 6, and the text is as it was.
#[unsafe(no_mangle)]
pub extern "C" fn metqoraz_single_line(order: &[u8], text: &mut [u8]) -> u64
    ensures value { result ≡ coded (on_figures length (single_in (length text.old) order.now)) }
    ensures text_after { text.new ≡ filled (single_in (length text.old) order.now) text.old }
{
    exports::metqoraz_single_line(order, text)
}

// Writes the sheet of an order into the front of the text and answers its length; or refusal 1 to 5
// of the order, 7 or 6, and the text is as it was.
#[unsafe(no_mangle)]
pub extern "C" fn metqoraz_sheet(order: &[u8], text: &mut [u8]) -> u64
    ensures value { result ≡ coded (on_figures length (sheet_in (length text.old) order.now)) }
    ensures text_after { text.new ≡ filled (sheet_in (length text.old) order.now) text.old }
{
    exports::metqoraz_sheet(order, text)
}
