// An order typed as text, written as an order file.
ghost use Rattle.std.specs.Prelude.{◌≤◌, ◌≡◌, length};
ghost use Rattle.std.proofs.lemmas.List.Edits.{sets};
ghost use Rattle.terms.specs.Answer.{on_figures};
ghost use Rattle.terms.specs.Lent.{filled};
ghost use Rattle.terms.specs.Refusals.{says};
ghost use Rattle.encoding.specs.NumberLaws.{Fit};
ghost use Rattle.order_text.specs.Text.{answered_by, file_of, on_read, order_of, text_says, write_figures};
ghost use Rattle.order_text.specs.FigureLaws.{Figures};

use crate::faults::TextError;
use crate::scan::read_figures;
use order_file::write_order;
use terms::Refusal;
use terms::limits::TRACE_LIMIT;
use typed_figures::figures::{FIGURES_LIMIT, TARIFF_FIGURES, tariff_of};

// Reads an order typed as text and writes it as an order file into the front of the bytes: the
// answer is the file's length; or the first fault of the text, refusal 3 or 5; or refusal 6 (bytes
// fewer than the file). On a fault or a refusal the bytes are as they were.
pub fn order_of_text(text: &[u8], file: &mut [u8]) -> Result<usize, TextError>
    ensures result_value { text_says result ≡ on_read (on_figures length) (file_of (length file.old) text.now) }
    ensures result_value_2 { answered_by result ≡ on_figures length (order_of (length file.old) text.now) }
    ensures file_after { file.new ≡ filled (order_of (length file.old) text.now) file.old }
{
    let mut figures = [0; FIGURES_LIMIT];
    let at = read_figures(text, &mut figures)?;
    let count = at.count;
    Ok(write_figures(&figures[..count], file)?)
}

// Writes the order of these figures.
fn write_figures(figures: &[u32], file: &mut [u8]) -> Result<usize, Refusal>
    requires { Figures figures.now }
    ensures result_value { says result ≡ on_figures length (write_figures (length file.old) figures.now) }
    ensures file_after { file.new ≡ filled (write_figures (length file.old) figures.now) file.old }
{
    let mut demands = [0; TRACE_LIMIT];
    let periods = figures.len() - TARIFF_FIGURES;
    load_demands(&figures[TARIFF_FIGURES..], &mut demands);
    write_order(tariff_of(figures), &demands[..periods], file)
}

// Puts the demands into the front of a list of 16-bit numbers.
fn load_demands(figures: &[u32], demands: &mut [u16])
    requires figures_in_bounds { length figures.now ≤ length demands.old }
    requires fit { Fit 2 figures.now }
    ensures { demands.new ≡ sets demands.old 0 figures.now }
{
    for (i, &figure) in figures.iter().enumerate() {
        demands[i] = figure as u16;
    }
}
