// The texts that are offered by themselves: that of a figure and that of a refusal.
ghost use Rattle.std.specs.Prelude.{◌≡◌, length};
ghost use Rattle.terms.specs.Answer.{on_figures};
ghost use Rattle.terms.specs.Lent.{filled};
ghost use Rattle.terms.specs.Refusals.{number_of, says};
ghost use Rattle.text.specs.Fitted.{fitted};
ghost use Rattle.text.specs.Lines.{refusal_line};
ghost use Rattle.text.specs.Megabits.{megabits};

use crate::figures::put_megabits;
use crate::fills::fill;
use crate::lines::put_refusal_line;
use crate::numerals::places;
use terms::Refusal;

// The bytes of the longest figure: that of the least 64-bit number.
pub const LONGEST_FIGURE: usize = 21;

// Writes a figure in megabits into the front of the text and answers its length; or refusal 6 where
// the text is shorter, and it is as it was.
pub fn megabits(figure: i64, text: &mut [u8]) -> Result<usize, Refusal>
    ensures result_value { says result ≡ on_figures length (fitted (length text.old) (megabits figure)) }
    ensures text_after { text.new ≡ filled (fitted (length text.old) (megabits figure)) text.old }
{
    let mut ready = [0u8; LONGEST_FIGURE];
    let length = put_megabits(&mut ready, 0, figure);
    fill(&ready[..length], text)
}

// The bytes of a refusal's line beside its digits: the word, the space and the newline.
const REFUSAL_WORD: usize = 9;

// The bytes of the longest line of a refusal, of any number of 32 bits.
pub const LONGEST_REFUSAL: usize = REFUSAL_WORD + 10;

// Writes the line of a refusal into the front of the text and answers its length; or refusal 6 where
// the text is shorter, and it is as it was.
pub fn refusal_line(why: Refusal, text: &mut [u8]) -> Result<usize, Refusal>
    ensures result_value { says result ≡ on_figures length (fitted (length text.old) (refusal_line (number_of why))) }
    ensures text_after { text.new ≡ filled (fitted (length text.old) (refusal_line (number_of why))) text.old }
{
    let number = u32::from(why);
    if text.len() < REFUSAL_WORD + places(number as u64) {
        return Err(Refusal::List);
    }
    Ok(put_refusal_line(text, 0, number))
}
