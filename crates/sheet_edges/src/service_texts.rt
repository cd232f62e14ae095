// One order: what each service writes of it into a text with so much room.
use cases::{DEMANDS, bucket_of, field, figure, tariff_of, trace};
use order_file::write_order;
use samples::file_bytes::{LENT, LENT_BYTES, front, is_lent, lent_front};
use terms::{Bucket, Refusal, Tariff};

// A case: its name in a line of its own, where it has one, and the texts.
pub fn services_case(rt: &impl Print, line: &[u8]) {
    let mut room = [0u16; DEMANDS];
    let trace = trace(field(line, 3), &mut room);
    let name = field(line, 1);
    if 0 < name.len() {
        report::words(rt, name);
        report::end_line(rt);
    }
    services_of(
        rt,
        tariff_of(field(line, 2)),
        trace,
        bucket_of(field(line, 4)),
        figure(field(line, 5), 0) as usize,
    );
}

// An order of this tariff and trace in all of them, the bucket being for the trial and its rate for the
// depths.
fn services_of(rt: &impl Print, tariff: Tariff, trace: &[u16], bucket: Bucket, room: usize) {
    let mut file = [LENT; LENT_BYTES];
    let answer = write_order(tariff, trace, &mut file);
    services(rt, front(&file, report::filled_of(answer)), bucket, room);
}

// The same of the bytes of an order.
pub fn services(rt: &impl Print, order: &[u8], bucket: Bucket, room: usize) {
    report::figure(rt, b"sheet in", room as u64);
    sheet_in(rt, order, room);
    report::figure(rt, b"single in", room as u64);
    service_in(rt, room, |text| services::single_line(order, text));
    report::figure(rt, b"trial of", bucket.rate.0 as u64);
    report::number(rt, bucket.depth.0 as u64);
    report::figure(rt, b" in", room as u64);
    service_in(rt, room, |text| services::trial_line(order, bucket, text));
    report::figure(rt, b"depth in", room as u64);
    service_in(
        rt,
        room,
        |text| services::depth_line(order, bucket.rate, text),
    );
    report::figure(rt, b"from the end in", room as u64);
    service_in(rt, room, |text| {
        services::depth_from_end_line(order, bucket.rate, text)
    });
    report::figure(rt, b"cause in", room as u64);
    service_in(
        rt,
        room,
        |text| services::explain_line(order, bucket.rate, text),
    );
}

pub fn sheet_in(rt: &impl Print, order: &[u8], room: usize) {
    service_in(rt, room, |text| sheets::sheet(order, text));
}

// What a service makes of a text with so much room.
fn service_in<F: Fn(&mut [u8]) -> Result<usize, Refusal>>(rt: &impl Print, room: usize, service: F)
    requires { F.IsAlwaysCallable service }
{
    let mut text = [LENT; LENT_BYTES];
    let answer = service(lent_front(&mut text, room));
    print(rt, answer, &text);
}

// How many bytes were filled, or the refusal; whether the rest is as it was lent; and the text.
pub fn print(rt: &impl Print, answer: Result<usize, Refusal>, text: &[u8; LENT_BYTES]) {
    let length = report::filled_of(answer);
    report::words(rt, b":");
    report::fill(rt, answer);
    report::kept(rt, is_lent(text, length));
    report::words(rt, front(text, length));
}
