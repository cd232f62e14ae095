// The lines of the sheet and of the other services, stored in a text. Public only for this crate's
// calls and the crates above, which show what is required.
ghost use Rattle.std.specs.Prelude.{◌+◌, ◌≤◌, length};
ghost use Rattle.text.specs.Lines.{bucket_fields, bucket_line, depth_fields, nothing_fields, number_line, opening_fields, plan_line, refusal_line, single_line, stretch_fields, trial_line, yes_line};
ghost use Rattle.text.specs.PutLaws.{Puts};

use crate::fields::{put_figure, put_tokens, put_word};
use crate::numerals::put_number;
use terms::{Bucket, Depth};

// The sheet's first line.
pub fn put_plan_line(text: &mut [u8], at: usize, periods: u32, buckets: u32, cost: u64) -> usize
    requires { at + length (plan_line periods buckets cost) ≤ length text.old }
    ensures { Puts text.old at (plan_line periods buckets cost) text.new result }
{
    let counts = put_word(text, at, b"plan", b' ');
    let second = put_number(text, counts, periods as u64, b' ');
    let third = put_number(text, second, buckets as u64, b' ');
    put_number(text, third, cost, b'\n')
}

// A bucket's rate and depth.
fn put_bucket(text: &mut [u8], at: usize, bucket: Bucket) -> usize
    requires { at + length (bucket_fields bucket) ≤ length text.old }
    ensures { Puts text.old at (bucket_fields bucket) text.new result }
{
    let depth = put_tokens(text, at, bucket.rate.0, b' ');
    put_tokens(text, depth, bucket.depth.0, b' ')
}

// A bucket's line.
pub fn put_bucket_line(
    text: &mut [u8],
    at: usize,
    first: u32,
    last: u32,
    bucket: Bucket,
    spare: i64,
) -> usize
    requires { at + length (bucket_line first last bucket spare) ≤ length text.old }
    ensures { Puts text.old at (bucket_line first last bucket spare) text.new result }
{
    let second = put_number(text, at, first as u64, b' ');
    let fields = put_number(text, second, last as u64, b' ');
    let end = put_bucket(text, fields, bucket);
    put_figure(text, end, spare, b'\n')
}

// A line of a word and a number.
fn put_number_line(text: &mut [u8], at: usize, word: &[u8], number: u64) -> usize
    requires { at + length (number_line word.now number) ≤ length text.old }
    ensures { Puts text.old at (number_line word.now number) text.new result }
{
    let end = put_word(text, at, word, b' ');
    put_number(text, end, number, b'\n')
}

// The line of a refusal.
pub fn put_refusal_line(text: &mut [u8], at: usize, number: u32) -> usize
    requires { at + length (refusal_line number) ≤ length text.old }
    ensures { Puts text.old at (refusal_line number) text.new result }
{
    put_number_line(text, at, b"refused", number as u64)
}

// The line of a trial.
pub fn put_trial_line(text: &mut [u8], at: usize, spare: i64, over: u32) -> usize
    requires { at + length (trial_line spare over) ≤ length text.old }
    ensures { Puts text.old at (trial_line spare over) text.new result }
{
    let second = put_word(text, at, b"trial", b' ');
    let third = put_figure(text, second, spare, b' ');
    put_tokens(text, third, over, b'\n')
}

// The line of a single bucket.
pub fn put_single_line(text: &mut [u8], at: usize, bucket: Bucket, cost: u64) -> usize
    requires { at + length (single_line bucket cost) ≤ length text.old }
    ensures { Puts text.old at (single_line bucket cost) text.new result }
{
    let fields = put_word(text, at, b"single", b' ');
    let end = put_bucket(text, fields, bucket);
    put_number(text, end, cost, b'\n')
}

// A depth, then a byte: a line of its own, or the front of one.
pub fn put_depth(text: &mut [u8], at: usize, depth: Depth, after: u8) -> usize
    requires { at + length (depth_fields depth.0 after) ≤ length text.old }
    ensures { Puts text.old at (depth_fields depth.0 after) text.new result }
{
    let end = put_word(text, at, b"depth", b' ');
    put_tokens(text, end, depth.0, after)
}

// What sets a depth, behind it on its line: nothing.
pub fn put_nothing(text: &mut [u8], at: usize) -> usize
    requires { at + length nothing_fields ≤ length text.old }
    ensures { Puts text.old at nothing_fields text.new result }
{
    put_word(text, at, b"nothing", b'\n')
}

// … an opening.
pub fn put_opening(text: &mut [u8], at: usize, periods: u32) -> usize
    requires { at + length (opening_fields periods) ≤ length text.old }
    ensures { Puts text.old at (opening_fields periods) text.new result }
{
    put_number_line(text, at, b"opening", periods as u64)
}

// … a stretch.
pub fn put_stretch(text: &mut [u8], at: usize, first: u32, last: u32) -> usize
    requires { at + length (stretch_fields first last) ≤ length text.old }
    ensures { Puts text.old at (stretch_fields first last) text.new result }
{
    let second = put_word(text, at, b"stretch", b' ');
    let third = put_number(text, second, first as u64, b' ');
    put_number(text, third, last as u64, b'\n')
}

// The line of a plan that holds, with its excess.
pub fn put_yes_line(text: &mut [u8], at: usize, excess: u64) -> usize
    requires { at + length (yes_line excess) ≤ length text.old }
    ensures { Puts text.old at (yes_line excess) text.new result }
{
    put_number_line(text, at, b"yes", excess)
}
