// Damaged orders: the printed case's with one byte changed, and with bytes missing or one too many.
ghost use Rattle.std.specs.Prelude.{◌<◌};

use crate::service_texts::{services, sheet_in};
use cases::bucket_of;
use order_file::write_order;
use samples::file_bytes::{FILE_ROOM, LENT, LENT_BYTES, front};
use samples::tariffs::printed_case;
use samples::traces::CASE;
use terms::Bucket;

// The bytes of the printed case's order.
const ORDER_BYTES: usize = 54;

pub fn edges(rt: &impl Print) {
    let trace = CASE;
    let mut file = [LENT; FILE_ROOM];
    let _ = write_order(printed_case(), &trace, &mut file);
    each_byte(rt, file);
    each_length(rt, file, bucket_of(b"5 3"));
}

// Each byte one higher and one lower; 255 and 0 are neighbours.
fn each_byte(rt: &impl Print, file: [u8; FILE_ROOM]) {
    for at in 0..ORDER_BYTES {
        raised(rt, file, at, file[at], 1);
        raised(rt, file, at, file[at], 255);
    }
}

// The byte there raised by so much.
fn raised(rt: &impl Print, file: [u8; FILE_ROOM], at: usize, byte: u8, by: u8)
    requires { at < 54 }
{
    let mut order = file;
    order[at] = ((byte as u32 + by as u32) % 256) as u8;
    report::figure(rt, b"byte", at as u64);
    report::figure(rt, b" raised by", by as u64);
    sheet_in(rt, front(&order, ORDER_BYTES), LENT_BYTES);
}

// All services; where the order is refused, room or none makes no difference.
fn each_length(rt: &impl Print, file: [u8; FILE_ROOM], bucket: Bucket) {
    for length in 0..56 {
        report::figure(rt, b"bytes", length as u64);
        report::end_line(rt);
        services(rt, front(&file, length), bucket, length);
    }
}
