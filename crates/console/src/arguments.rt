// A program's arguments: how many there are, and the word that one is. Public only for the programs.
use std::env::FillError;
use std::rt::Env;

// The bytes of an argument; a longer one counts as empty.
pub const WORD_ROOM: usize = 64;

// Whether the program was started with that many words, its own name among them.
pub fn is_started_with(rt: &impl Env, count: usize) -> bool {
    !is_there(rt, count) & ((count == 0) || is_there(rt, count - 1))
}

fn is_there(rt: &impl Env, index: usize) -> bool {
    let mut room = [0u8; 1];
    !matches!(rt.arg(index, &mut room), Err(FillError::NotPresent))
}

// Whether an argument is that word.
pub fn is_word(rt: &impl Env, index: usize, wanted: &[u8]) -> bool {
    word(rt, index, &mut [0; WORD_ROOM]) == wanted
}

// Puts an argument into the room, and gives the part that it fills.
pub fn word<'a>(rt: &impl Env, index: usize, room: &'a mut [u8; WORD_ROOM]) -> &'a [u8] {
    let length = rt.arg(index, room).unwrap_or(0);
    &room[..length]
}
