// A program: what it makes of its arguments and of standard input, and what it says. Public only for the
// programs.
ghost use Rattle.std.specs.Prelude.{IfOk};
ghost use Rattle.console.specs.Counts.{IsPrefixLen};

use crate::arguments::{WORD_ROOM, is_started_with, is_word, word};
use crate::reasons::say;
use std::io;
use std::io::Read;
use std::rt::Env;
use terms::Refusal;
use text::{LONGEST_REFUSAL, refusal_line};
use typed_figures::number_of;

#[derive(Drop)]
pub struct Program<'a, E> {
    // what a line on standard error begins with
    pub name: &'a str,
    // standard error
    pub errors: &'a E,
}

impl<E: Print> Program<'_, E> {
    // Whether the program was started with that many words, its own name among them. Where it was not,
    // its use goes to standard error, or to standard output where --help is the only argument.
    pub fn has_words(&self, rt: &(impl Env + Print), count: usize, usage: &[u8]) -> bool {
        if is_started_with(rt, 2) & is_word(rt, 1, b"--help") {
            self.put(rt, usage);
            return false;
        }
        if is_started_with(rt, count) {
            return true;
        }
        self.put(self.errors, usage);
        false
    }

    // The number that an argument stands for; where it is none, standard error says what it should be.
    pub fn kilobits(&self, rt: &impl Env, index: usize, argument: &str) -> Option<u32> {
        let number = number_of(word(rt, index, &mut [0; WORD_ROOM]));
        if number.is_none() {
            let name = self.name;
            if let Err(error) = println!(self.errors;
                "{name}: {argument} is a whole number of kilobits, 0 to 4294967295 (refused 5)"
            ) {
                say(self.errors, name, "write", &error);
            }
        }
        number
    }

    // Reads standard input into the first room, has the line made of it in the second, and prints that
    // or the refusal line. A program hands over a closure: a function of another crate has no proof
    // where it is passed by its name.
    pub fn answer<L: Fn(&[u8], &mut [u8]) -> Result<usize, Refusal>>(
        &self,
        rt: &(impl Input + Print),
        room: &mut [u8],
        text: &mut [u8],
        line: L,
    )
        requires { L.IsAlwaysCallable line }
    {
        let length = self.read(rt, room);
        match line(&room[..length], text) {
            Ok(length) => self.put_front(rt, text, length),
            Err(why) => self.refuse(rt, why),
        }
    }

    // Reads all of standard input, or as much of it as there is room for. Where a read fails, it says so
    // and nothing counts as read: a part of an order could pass for another order.
    pub fn read(&self, rt: &impl Input, room: &mut [u8]) -> usize
        ensures { IsPrefixLen result room.new }
    {
        match fill(rt, room) {
            Ok(length) => length,
            Err(error) => {
                say(self.errors, self.name, "standard input", &error);
                0
            }
        }
    }

    // Writes the front of some bytes, as long as a call has answered.
    pub fn put_front(&self, to: &impl Print, bytes: &[u8], length: usize) {
        if length <= bytes.len() {
            self.put(to, &bytes[..length]);
        }
    }

    // Writes the refusal line.
    pub fn refuse(&self, to: &impl Print, why: Refusal) {
        let mut line = [0u8; LONGEST_REFUSAL];
        if let Ok(length) = refusal_line(why, &mut line) {
            self.put_front(to, &line, length);
        }
    }

    // Writes all of some bytes, and says so where that fails.
    fn put(&self, to: &impl Print, bytes: &[u8]) {
        if let Err(error) = to.write_all(bytes) {
            say(self.errors, self.name, "write", &error);
        }
    }
}

// Reads standard input, in whatever pieces it comes, to its end or to the room's.
fn fill(rt: &impl Input, room: &mut [u8]) -> io::Result<usize>
    ensures { IfOk result (λ n. IsPrefixLen n room.new) }
{
    let mut from = rt.reader();
    let mut done = 0;
    // by hand, since how far a reading gets is known only after it
    while done < room.len() {
        let more = from.read(&mut room[done..])?;
        if more == 0 {
            break;
        }
        done += more;
    }
    Ok(done)
}
