// An order booked with lists that are as long as any order needs. Public only for this program, which
// shows what is required.
ghost use Rattle.std.specs.Prelude.{◌≤◌, length};
ghost use Rattle.terms.specs.Refusals.{says};
ghost use Rattle.plan_file.specs.Plan.{longest_plan};
ghost use Rattle.book.specs.Filed.{BooksFile};

use booking::book;
use record_list::arrays::blank_records;
use recording::Booking;
use terms::Refusal;
use terms::limits::TRACE_LIMIT;

// Books an order: the plan's file fills the front of the bytes, which have room for the longest; or a
// refusal, and the bytes are as they were.
pub fn book_file(order: &[u8], bytes: &mut [u8]) -> Result<Booking, Refusal>
    requires { longest_plan ≤ length bytes.old }
    ensures { BooksFile order.now bytes.old bytes.new (says result) }
{
    let mut demands = blank_demands();
    let mut plan = blank_records();
    let mut back = blank_records();
    book(order, &mut demands, &mut plan, bytes, &mut back)
}

// As many demands of zero as the longest trace has periods.
fn blank_demands() -> [u16; TRACE_LIMIT] {
    [0; TRACE_LIMIT]
}
