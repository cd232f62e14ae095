// Figures in megabits, each in a text one byte too short, just long enough and longer.
use crate::service_texts::print;
use cases::{field, figure, first, number};
use samples::file_bytes::{LENT, LENT_BYTES, lent_front};
use text::megabits;

// The digits of a case behind its sign, and the room of a text that is one byte too short for the figure.
pub fn figure_case(rt: &impl Print, line: &[u8]) {
    let short = figure(field(line, 2), 0) as usize;
    let figure = signed(field(line, 1));
    figure_in(rt, figure, short);
    figure_in(rt, figure, short + 1);
    figure_in(rt, figure, short + 2);
}

// A word as a signed number.
fn signed(word: &[u8]) -> i64 {
    let n = number(word);
    if first(word) != b'-' {
        return (n % 9_223_372_036_854_775_808) as i64;
    }
    if n == 0 {
        return 0;
    }
    // minus n is n − 1 with every bit changed
    !(((n - 1) % 9_223_372_036_854_775_808) as i64)
}

fn figure_in(rt: &impl Print, figure: i64, room: usize) {
    let mut text = [LENT; LENT_BYTES];
    let answer = megabits(figure, lent_front(&mut text, room));
    report::words(rt, b"figure");
    report::signed(rt, figure);
    report::figure(rt, b" in", room as u64);
    print(rt, answer, &text);
    if 0 < report::filled_of(answer) {
        report::end_line(rt);
    }
}
