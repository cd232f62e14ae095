// What is wrong with a text, in one line on standard error: where, about which figure, its word where it
// has one, why, and the refusal's number.
use order_text::{Fault, Reason, word_around};
use terms::Refusal;
use typed_figures::limit_of;

pub fn say(rt: &impl Eprint, fault: Fault, text: &[u8]) {
    let line = fault.line;
    let _ = eprint!(rt; "order: line {line}: ");
    name(rt, fault.figure);
    let word = word_around(text, fault.place);
    let reason = fault.reason;
    match reason {
        Reason::Byte => of_word(rt, word, " is not a decimal number"),
        Reason::Above => above(rt, word, fault.figure),
        Reason::Factor => of_word(rt, word, " is 0, or less than p"),
        Reason::Many => words(rt, "more than 512 demands"),
        Reason::Few => words(rt, "the text ends where it is due"),
    }
    let number = u32::from(Refusal::from(reason));
    let _ = eprint!(rt; " (refused {number})\n");
}

pub fn long_text(rt: &impl Eprint) {
    words(rt, "order: the text has more than 65535 bytes\n");
}

pub fn refused(rt: &impl Eprint, refusal: Refusal) {
    let number = u32::from(refusal);
    let _ = eprint!(rt; "order: refused {number}\n");
}

// A figure by its name, and a colon; the first demand is demand 1.
fn name(rt: &impl Eprint, figure: usize) {
    if figure > 6 {
        let demand = figure - 6;
        let _ = eprint!(rt; "demand {demand}: ");
        return;
    }
    let name = figure_name(figure);
    let _ = eprint!(rt; "{name}: ");
}

fn figure_name(figure: usize) -> &'static str {
    match figure {
        0 => "rate price",
        1 => "depth price",
        2 => "fee",
        3 => "p",
        4 => "q",
        5 => "rate cap",
        _ => "depth cap",
    }
}

fn above(rt: &impl Eprint, word: &[u8], figure: usize) {
    of_word(rt, word, " is above ");
    let _ = rt.eprint(limit_of(figure));
}

// A word in quotes, then what is said of it.
fn of_word(rt: &impl Eprint, word: &[u8], fault: &str) {
    words(rt, "\"");
    for &b in word.iter().take(SHOWN) {
        byte(rt, b);
    }
    let rest = if SHOWN < word.len() { "..." } else { "" };
    let _ = eprint!(rt; "\"{rest}{fault}");
}

// So many bytes of a word are shown.
const SHOWN: usize = 40;

// A byte that prints as itself, any other by its number, as \x00 to \xff: none reaches a terminal as
// a command.
fn byte(rt: &impl Eprint, b: u8) {
    if b.is_ascii_graphic() {
        let _ = rt.eprint(char::from(b));
        return;
    }
    let _ = eprint!(rt; "\\x{b:02x}");
}

fn words(rt: &impl Eprint, text: &str) {
    let _ = rt.eprint(text);
}
