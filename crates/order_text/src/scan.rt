// The scan of a text, byte by byte. A cursor says where it has come to; the figures read so far lie
// at the front of a list that is lent.
ghost use Rattle.std.specs.Prelude.{◌≡◌, true, length, Err};
ghost use Rattle.typed_figures.specs.Decimal.{is_digit};
ghost use Rattle.typed_figures.specs.Figures.{figures_limit};
ghost use Rattle.order_text.specs.Text.{after_byte, closed, fault_at, faulty, figures_of, on_read, whole_scan, with_digit};
ghost use Rattle.order_text.specs.Cursors.{Ahead, Fits, Passes, StepFits, Steps, scan_of, step_says};

use crate::bytes::{ends_figure, ends_line, mark_length};
use crate::faults::{Fault, Reason};
use typed_figures::digits::{is_digit, push_digit};
use typed_figures::figures::{FIGURES_LIMIT, P_INDEX, TARIFF_FIGURES, factor_stands};
use typed_figures::limit_of;

// Where the scan has come to.
#[derive(Clone, Copy)]
pub(crate) struct Cursor {
    // the line that the scan is on, from 1
    pub line: usize,
    // how many bytes of the text are before it, and whether the last of them is a carriage return
    pub place: usize,
    pub returned: bool,
    // whether a comment is open
    pub comment: bool,
    // whether a figure is begun, and what its digits come to; 0 where none is
    pub begun: bool,
    pub value: u32,
    // how many figures are read
    pub count: usize,
}

// Reads the figures of a text into the front of the list, or finds its first fault. The end of the
// text ends a figure that is begun.
pub(crate) fn read_figures(text: &[u8], figures: &mut [u32]) -> Result<Cursor, Fault>
    requires { length figures.old ≡ figures_limit }
    ensures figures_after { on_read (λ s. s.figures) (step_says result figures.new) ≡ figures_of text.now }
    ensures step_fits { StepFits result }
{
    let at = scan(text, figures)?;
    let at = close(at, figures)?;
    if at.count <= TARIFF_FIGURES {
        return Err(fault_at(at, Reason::Few));
    }
    Ok(at)
}

// Scans the whole text behind its mark, or up to its first fault.
fn scan(text: &[u8], figures: &mut [u32]) -> Result<Cursor, Fault>
    requires { length figures.old ≡ figures_limit }
    ensures figures_after { step_says result figures.new ≡ whole_scan text.now }
    ensures step_fits { StepFits result }
{
    let front = mark_length(text);
    let mut at = Cursor {
        line: 1,
        place: front,
        returned: false,
        comment: false,
        begun: false,
        value: 0,
        count: 0,
    };
    for &byte in &text[front..] {
        at = after_byte(at, byte, figures)?;
    }
    Ok(at)
}

// One byte more: a comment passes over it; else a digit goes to a figure, what may stand behind a
// figure ends one that is begun, and any other byte is a fault.
fn after_byte(at: Cursor, byte: u8, figures: &mut [u32]) -> Result<Cursor, Fault>
    requires figures_len { length figures.old ≡ figures_limit }
    requires fits { Fits at }
    requires ahead { Ahead at }
    ensures figures_after { step_says result figures.new ≡ after_byte (scan_of at figures.old) byte }
    ensures step_fits { StepFits result }
{
    if at.comment {
        return Ok(pass(at, byte));
    }
    if is_digit(byte) {
        return with_digit(at, byte);
    }
    if !ends_figure(byte) {
        return Err(fault_at(at, Reason::Byte));
    }
    let next = close(at, figures)?;
    Ok(pass(next, byte))
}

// Past a byte that belongs to no figure: a line ends with its comment, a # opens one.
fn pass(at: Cursor, byte: u8) -> Cursor
    requires { Ahead at }
    ensures { Passes byte at result }
{
    let next = Cursor {
        place: at.place + 1,
        returned: byte == b'\r',
        ..at
    };
    if ends_line(at.returned, byte) {
        return Cursor {
            line: at.line + 1,
            comment: false,
            ..next
        };
    }
    Cursor {
        comment: at.comment | (byte == b'#'),
        ..next
    }
}

// A digit goes to the figure that is begun, or begins one.
fn with_digit(at: Cursor, byte: u8) -> Result<Cursor, Fault>
    requires fits { Fits at }
    requires ahead { Ahead at }
    requires byte_value { is_digit byte ≡ true }
    ensures { Steps (λ s. with_digit s byte) at result }
{
    if FIGURES_LIMIT <= at.count {
        return Err(fault_at(at, Reason::Many));
    }
    let Some(value) = push_digit(at.value, byte, limit_of(at.count)) else {
        return Err(fault_at(at, Reason::Above));
    };
    Ok(Cursor {
        place: at.place + 1,
        returned: false,
        begun: true,
        value,
        ..at
    })
}

// Ends the figure that is begun, if one is: it goes behind the figures read.
fn close(at: Cursor, figures: &mut [u32]) -> Result<Cursor, Fault>
    requires figures_len { length figures.old ≡ figures_limit }
    requires fits { Fits at }
    ensures figures_after { step_says result figures.new ≡ closed (scan_of at figures.old) }
    ensures step_fits { StepFits result }
{
    if !at.begun {
        return Ok(at);
    }
    let index = at.count;
    if !factor_stands(index, figures[P_INDEX], at.value) {
        return Err(fault_at(at, Reason::Factor));
    }
    figures[index] = at.value;
    Ok(Cursor {
        begun: false,
        value: 0,
        count: index + 1,
        ..at
    })
}

// A fault for this reason where the scan is.
fn fault_at(at: Cursor, reason: Reason) -> Fault
    requires { Fits at }
    ensures { Steps (λ s. faulty (fault_at reason s)) at (Err result) }
{
    Fault {
        line: at.line,
        place: at.place,
        figure: at.count,
        reason,
    }
}
