// Why a read or a write failed.
use arrayvec::ArrayString;
use std::fmt::Write;
use std::io;

// A longer reason is left out.
const REASON_ROOM: usize = 320;

// A line that says what failed in which program, and the system's reason. That this may fail too is
// nothing that one could say.
pub fn say(errors: &impl Print, name: &str, what: &str, error: &io::Error) {
    let mut text = ArrayString::<REASON_ROOM>::new();
    let _ = write!(text, "{error}");
    let reason = reason_of(text.as_str());
    let _ = println!(errors; "{name}: {what}: {reason}");
}

// An error's text without the number that stands behind it.
fn reason_of(text: &str) -> &str {
    text.split_once(" (os error ")
        .map_or(text, |(reason, _)| reason)
}
