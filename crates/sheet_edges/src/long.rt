// An order of 512 periods where each has its own bucket, and the file of 513.
use crate::service_texts::services;
use cases::{DEMANDS, bucket_of, tariff_of, trace};
use order_file::{LONGEST_ORDER, write_order};
use samples::file_bytes::{LENT, LENT_BYTES, front};
use samples::tariffs::with_fee;
use sheets::LONGEST_SHEET;
use terms::Tariff;

pub fn edges(rt: &impl Print) {
    longer(rt);
    widest(rt);
}

// The order's bytes with these prices, the feature being the trace.
fn feature_order(tariff: Tariff) -> [u8; LENT_BYTES] {
    let mut room = [0u16; DEMANDS];
    let trace = trace(b"feature", &mut room);
    let mut file = [LENT; LENT_BYTES];
    let _ = write_order(tariff, trace, &mut file);
    file
}

// A file for 513 periods, right but for that.
fn longer(rt: &impl Print) {
    let mut file = feature_order(tariff_of(b"20 1 1000000 2 3 4095 1000000"));
    file[4] = 1;
    file[16] = 50;
    services(
        rt,
        front(&file, LONGEST_ORDER + 2),
        bucket_of(b"4095 1000"),
        LENT_BYTES,
    );
}

// Each period has its own bucket, and the sheet needs more room than the other texts have.
fn widest(rt: &impl Print) {
    let file = feature_order(with_fee(0));
    let mut text = [0u8; LONGEST_SHEET];
    let answer = sheets::sheet(front(&file, LONGEST_ORDER), &mut text);
    report::words(rt, b"widest:");
    report::fill(rt, answer);
    report::end_line(rt);
    report::words(rt, front(&text, report::filled_of(answer)));
}
