// Three traces of 512 periods, each by a rule.
use crate::traces::DEMANDS;

const PERIODS: usize = 512;

// Scenes of 32 periods, each with a demand of its own and a peak in every seventh period.
pub fn scenes(room: &mut [u16; DEMANDS]) -> usize {
    for (i, place) in room.iter_mut().take(PERIODS).enumerate() {
        *place = demand(i / 32, i % 7);
    }
    PERIODS
}

fn demand(scene: usize, step: usize) -> u16 {
    let base = scene % 16 * 389 % 1500;
    if step == 0 {
        return (base + 900) as u16;
    }
    (base + 40) as u16
}

// A trace like a feature's: scenes of 8 to 40 periods, each of a size of its own, and pictures in
// groups of 12.
pub fn feature(room: &mut [u16; DEMANDS]) -> usize {
    for (i, place) in room.iter_mut().take(PERIODS).enumerate() {
        *place = picture(i / 40 + i / 56, i % 12, i * 7919 % 997);
    }
    PERIODS
}

// A group begins with an intra picture; every third picture is predicted, and the others are small.
fn picture(scene: usize, step: usize, varied: usize) -> u16 {
    let size = scene % 32 * 2917 % 3100 + 250;
    let more = varied % 997;
    if step == 0 {
        return (14 * size + 4 * more) as u16;
    }
    if step % 3 == 0 {
        return (2 * size + more) as u16;
    }
    (size / 2 + more) as u16
}

// Demands in no order, from 0 to the greatest.
pub fn uneven(room: &mut [u16; DEMANDS]) -> usize {
    for (i, place) in room.iter_mut().take(PERIODS).enumerate() {
        *place = (i * 24_691 % 65_536) as u16;
    }
    room[1] = 255;
    room[2] = 256;
    room[511] = 65_535;
    PERIODS
}
