// How many entries and bytes a booking is lent.
use cases::figure;

// The entries of the demands and of the list for planning, the bytes, and the entries of the list
// read into.
#[derive(Clone, Copy)]
pub struct Rooms {
    pub demands: usize,
    pub list: usize,
    pub bytes: usize,
    pub back: usize,
}

// The four figures of a field.
pub fn rooms_of(field: &[u8]) -> Rooms {
    Rooms {
        demands: figure(field, 0) as usize,
        list: figure(field, 1) as usize,
        bytes: figure(field, 2) as usize,
        back: figure(field, 3) as usize,
    }
}

pub fn print_rooms(rt: &impl Print, x: Rooms) {
    report::figure(rt, b", demands", x.demands as u64);
    report::figure(rt, b", list", x.list as u64);
    report::figure(rt, b", bytes", x.bytes as u64);
    report::figure(rt, b", back", x.back as u64);
    report::words(rt, b":");
}
