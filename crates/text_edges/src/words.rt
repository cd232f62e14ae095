// Words as numbers.
use typed_figures::number_of;

// What a word of digits stands for, or that it is none.
pub fn print_number(rt: &impl Print, word: &[u8]) {
    report::words(rt, b"word [");
    report::words(rt, word);
    report::words(rt, b"]:");
    match number_of(word) {
        Some(n) => report::number(rt, n as u64),
        None => report::words(rt, b" no number"),
    }
    report::end_line(rt);
}
