// A text that stands ready, stored at the front of a lent one. Public only for this crate's calls and
// the crates above.
ghost use Rattle.std.specs.Prelude.{length};
ghost use Rattle.terms.specs.Refusals.{says};
ghost use Rattle.encoding.specs.FillLaws.{Fills};
ghost use Rattle.text.specs.Fitted.{fitted};

use terms::Refusal;

// Stores it and answers its length; or refusal 6 where the lent text is shorter, and that is as it
// was.
pub fn fill(ready: &[u8], text: &mut [u8]) -> Result<usize, Refusal>
    ensures { Fills (fitted (length text.old) ready.now) text.old (says result) text.new }
{
    if text.len() < ready.len() {
        return Err(Refusal::List);
    }
    text[..ready.len()].copy_from_slice(ready);
    Ok(ready.len())
}
