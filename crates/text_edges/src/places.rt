// The word around each place of a text, and the places of faults with the words around them.
use order_text::{TextError, order_of_text, word_around};
use samples::file_bytes::{FILE_ROOM, LENT};

// The lengths of the words around all places of a text, and around some behind it.
pub fn every_place(rt: &impl Print, text: &[u8]) {
    report::words(rt, b"words of");
    lengths(rt, text);
    length(rt, text, text.len());
    length(rt, text, usize::MAX);
    report::words(rt, b" bytes");
    report::end_line(rt);
}

fn lengths(rt: &impl Print, text: &[u8]) {
    for place in 0..text.len() {
        length(rt, text, place);
    }
}

fn length(rt: &impl Print, text: &[u8], place: usize) {
    report::number(rt, word_around(text, place).len() as u64);
}

// The place of a fault, and the word around it.
pub fn fault(rt: &impl Print, text: &[u8]) {
    let mut file = [LENT; FILE_ROOM];
    let Err(TextError::Faulty(fault)) = order_of_text(text, &mut file) else {
        return;
    };
    report::figure(rt, b"fault at", fault.place as u64);
    report::words(rt, b": [");
    report::words(rt, word_around(text, fault.place));
    report::words(rt, b"]");
    report::end_line(rt);
}
