// One booking: its order, what it is lent, and the answer.
use crate::recorded::{print_runs, read_again};
use crate::rooms::{Rooms, print_rooms, rooms_of};
use booking::Booking;
use cases::{DEMANDS, field, figure, file_of, tariff_of, trace};
use list_calls::book_on;
use order_file::write_order;
use samples::demands::{LENT_DEMAND, are_lent, lent_demands};
use samples::file_bytes::{LENT, LENT_BYTES, front, is_lent, lent_front};
use samples::lent_records::{ENTRIES, are_kept, filled};
use terms::Refusal;

// A case: an order of some tariff and trace, booked in some rooms.
pub fn order_case(rt: &impl Print, line: &[u8]) {
    let mut room = [0u16; DEMANDS];
    let trace = trace(field(line, 4), &mut room);
    let mut file = [LENT; LENT_BYTES];
    let answer = write_order(tariff_of(field(line, 3)), trace, &mut file);
    named(rt, line, front(&file, report::filled_of(answer)));
}

// A case: the first bytes of a file of some words.
pub fn damaged_case(rt: &impl Print, line: &[u8]) {
    let file = file_of(field(line, 4));
    named(rt, line, front(&file, figure(field(line, 3), 0) as usize));
}

// The name and the rooms of a case, and what booking its order answers.
fn named(rt: &impl Print, line: &[u8], order: &[u8]) {
    let rooms = rooms_of(field(line, 2));
    report::words(rt, field(line, 1));
    print_rooms(rt, rooms);
    book_in(rt, order, rooms);
}

// The answer and what is kept; and of a booking the records and the meters.
fn book_in(rt: &impl Print, order: &[u8], rooms: Rooms) {
    let mut demands = [LENT_DEMAND; ENTRIES];
    let mut bytes = [LENT; LENT_BYTES];
    let lent = book_on(
        order,
        lent_demands(&mut demands, rooms.demands),
        filled(),
        rooms.list,
        lent_front(&mut bytes, rooms.bytes),
        filled(),
        rooms.back,
    );
    let answer = lent.answer;
    let plan = lent.plan;
    let back = lent.back;
    print_answer(rt, answer);
    // 0 where nothing is booked
    let periods = answer.map_or(0, |x| x.plan.periods as usize);
    let buckets = answer.map_or(0, |x| x.plan.buckets as usize);
    let length = answer.map_or(0, |x| x.length);
    report::kept(
        rt,
        are_lent(&demands, periods)
            & are_kept(plan, buckets)
            & is_lent(&bytes, length)
            & are_kept(back, buckets),
    );
    if 0 < buckets {
        report::words(rt, b"planned");
        read_again(rt, &bytes, length, plan);
        report::words(rt, b"read back");
        read_again(rt, &bytes, length, back);
        print_runs(rt, order, &demands, back);
    }
}

// The plan's figures, the file's length and the totals of the meters, or the refusal.
fn print_answer(rt: &impl Print, answer: Result<Booking, Refusal>) {
    match answer {
        Ok(x) => {
            let plan = x.plan;
            report::plan(rt, Ok(plan));
            report::figure(rt, b" length", x.length as u64);
            report::totals(
                rt,
                x.meters.sent,
                x.meters.over,
                x.meters.lost,
                x.meters.held,
            );
        }
        Err(x) => report::refusal(rt, x),
    }
}
