// What is wrong with a text.
ghost use Rattle.std.specs.Prelude.{◌≡◌};
ghost use Rattle.terms.specs.Refusals.{number_of};
ghost use Rattle.order_text.specs.declared.faults.TextError.TheVariants.{Faulty, Refused};
ghost use Rattle.order_text.specs.Text.{reason_number};

use terms::Refusal;

#[derive(Clone, Copy)]
pub enum Reason {
    // a byte that belongs to no figure
    Byte,
    // a figure above its limit
    Above,
    // a factor that is none: q is 0, or p is above q
    Factor,
    // more demands than a trace has
    Many,
    // the text ends before the first demand
    Few,
}

// A fault: its line, from 1; its place, how many bytes of the text stand before the one that shows it,
// or how many the text has where its end does; the figure that is being read or is due there, from 0
// for the rate price to 6 for the depth cap, and from 7 on for the demands; and its reason.
#[derive(Clone, Copy)]
pub struct Fault {
    pub line: usize,
    pub place: usize,
    pub figure: usize,
    pub reason: Reason,
}

// The refusal that a fault for this reason is: 3 for too many or too few demands, 5 for any other.
impl From<Reason> for Refusal {
    ghost from_gives = { λ reason why. number_of why ≡ reason_number reason };

    fn from(reason: Reason) -> Refusal {
        match reason {
            Reason::Byte | Reason::Above | Reason::Factor => Refusal::Figure,
            Reason::Many | Reason::Few => Refusal::Periods,
        }
    }
}

// The same as a call.
pub fn refusal_of(reason: Reason) -> Refusal
    ensures { number_of result ≡ reason_number reason }
{
    Refusal::from(reason)
}

// Why a text gives no order file.
#[derive(Clone, Copy)]
pub enum TextError {
    // the first fault of the text
    Faulty(Fault),
    // the bytes are fewer than the file
    Refused(Refusal),
}

impl From<Fault> for TextError {
    ghost from_gives = { λ fault why. why ≡ Faulty fault };

    fn from(fault: Fault) -> TextError {
        TextError::Faulty(fault)
    }
}

impl From<Refusal> for TextError {
    ghost from_gives = { λ refusal why. why ≡ Refused refusal };

    fn from(refusal: Refusal) -> TextError {
        TextError::Refused(refusal)
    }
}
