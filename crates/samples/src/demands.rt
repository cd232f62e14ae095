// The list of demands that a call is lent, compared afterwards.
use crate::lent_records::ENTRIES;

// What the entries of a lent list hold before a call.
pub const LENT_DEMAND: u16 = 43_690;

// The first entries of a list, to be written to; all where there are fewer.
pub fn lent_demands(list: &mut [u16], entries: usize) -> &mut [u16] {
    let entries = entries.min(list.len());
    &mut list[..entries]
}

// The entries from one on and before another; none where the list has no such part.
pub fn part_of(list: &[u16], start: usize, end: usize) -> &[u16] {
    list.get(start..end).unwrap_or(&[])
}

// Whether the entries from one on are as they were lent.
pub fn are_lent(list: &[u16; ENTRIES], start: usize) -> bool {
    list.iter().skip(start).all(|&demand| demand == LENT_DEMAND)
}
