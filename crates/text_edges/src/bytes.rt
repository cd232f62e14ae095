// Every byte there is, in one place of a text. Most are faults at their own place; what the others give
// is printed.
use crate::answers::print;
use cases::PLAIN_ROOM;
use order_text::{Fault, Reason, TextError, order_of_text};
use samples::file_bytes::{FILE_ROOM, LENT};

// How many bytes there are.
const BYTES: u32 = 256;

// The place: between two demands in the second line.
const PLACE: usize = 15;

pub fn each_byte(rt: &impl Print, text: &[u8]) {
    for byte in 0..BYTES {
        between(rt, text, byte as u8);
    }
}

fn between(rt: &impl Print, text: &[u8], byte: u8) {
    let mut room = [0u8; PLAIN_ROOM];
    let length = text.len().min(PLAIN_ROOM);
    let changed = &mut room[..length];
    changed.copy_from_slice(&text[..length]);
    if PLACE < length {
        changed[PLACE] = byte;
    }
    let mut file = [LENT; FILE_ROOM];
    let answer = order_of_text(changed, &mut file);
    if is_fault_there(answer) {
        return;
    }
    report::figure(rt, b"byte", byte as u64);
    report::words(rt, b" between demands:");
    print(rt, answer);
    report::end_line(rt);
}

fn is_fault_there(answer: Result<usize, TextError>) -> bool {
    match answer {
        Err(TextError::Faulty(fault)) => is_there(fault),
        _ => false,
    }
}

fn is_there(fault: Fault) -> bool {
    let reason = fault.reason;
    match reason {
        Reason::Byte => (fault.line == 2) & (fault.figure == 7) & (fault.place == PLACE),
        _ => false,
    }
}
