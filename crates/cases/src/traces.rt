// Traces: their demands typed, or one of three of 512 periods, by its name: scenes, feature, uneven.
use crate::made::{feature, scenes, uneven};
use crate::numbers::small;
use crate::parts::first;

// Some more than the longest trace has.
pub const DEMANDS: usize = 516;

// Stores the demands of a field, and gives the part that they fill.
pub fn trace<'a>(field: &[u8], room: &'a mut [u16; DEMANDS]) -> &'a [u16] {
    let count = match first(field) {
        b's' => scenes(room),
        b'f' => feature(room),
        b'u' => uneven(room),
        _ => typed(field, room),
    };
    &room[..count.min(room.len())]
}

// Demands typed one by one; a word such as 512*3 stands for 3 that many times. Gives their number.
fn typed(field: &[u8], room: &mut [u16]) -> usize {
    if field.is_empty() {
        return 0;
    }
    let mut count = 0;
    for word in field.split(|&byte| byte == b' ') {
        let mut parts = word.split(|&byte| byte == b'*');
        count = match (parts.next(), parts.next()) {
            (Some(times), Some(demand)) if !demand.is_empty() => stored(
                room,
                count,
                small(times),
                small(demand),
            ),
            _ => stored(room, count, 1, small(word)),
        };
    }
    count
}

// A demand stored some times from a place on, as far as there is room; the place behind.
fn stored(room: &mut [u16], from: usize, times: u32, demand: u32) -> usize {
    let from = from.min(room.len());
    let end = from.saturating_add(times as usize).min(room.len());
    room[from..end].fill((demand % 65_536) as u16);
    end
}
