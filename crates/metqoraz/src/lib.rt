// What Metqoraz offers: every call that a planner's program may make, and the types in its signature, by
// subject. None requires anything of its caller: whatever is handed over gives the figures or one
// numbered refusal, and after a refusal everything lent holds what it held.
#![tactic(auto)]

// The nouns, the refusals and their numbers, and whether figures are in their ranges.
pub use terms::{
    Bucket, BucketRecord, Depth, DepthPrice, Factor, Rate, RatePrice, Refusal, Tariff,
    bucket_in_range, factor_in_range, fresh_in_range, periods_in_range, record_in_range,
    refusal_number, tariff_in_range,
};

// A bucket on a trace, and a bucket metered period by period.
pub use bucket::{Period, TrialFigures, trial};
pub use meter::{Meter, Offered, meter_run, offer, open_meter};

// The smallest depth at a rate and what sets it, the cheapest bucket, and the cheapest series of buckets.
pub use causes::{Cause, Explained, Opening, Stretch, explain};
pub use depth::{depth_at, depth_from_end};
pub use lent_plans::{Plan, series};
pub use single::{Priced, single};

// The two files, and room for the longest.
pub use lent_plans::{PlanFigures, read_plan, write_plan};
pub use order_file::{
    LONGEST_ORDER, Order, order_end, read_order, spread, trace_part, write_order,
};
pub use plan_file::LONGEST_PLAN;

// From an order file to a plan that is recorded and metered.
pub use booking::{Booking, MeterTotals, book};

// A plan from any planning house checked against an order, as an answer and as a line.
pub use checking::{LONGEST_VERDICT, Verdict, check, check_files, check_line};

// Texts: the services from an order file, a figure in megabits, a refusal; and room for the longest.
pub use services::{
    LONGEST_DEPTH, LONGEST_EXPLAINED, LONGEST_SINGLE, LONGEST_TRIAL, depth_from_end_line,
    depth_line, explain_line, single_line, trial_line,
};
pub use sheets::{LONGEST_SHEET, sheet};
pub use text::{LONGEST_FIGURE, LONGEST_REFUSAL, megabits, refusal_line};

// Typed text: an order's figures, the word around a fault, and one number.
pub use order_text::{Fault, Reason, TextError, order_of_text, refusal_of, word_around};
pub use typed_figures::{limit_of, number_of};

// For programs in C and Rust, on numbers and slices.
pub use exports::{
    metqoraz_book, metqoraz_check, metqoraz_depth, metqoraz_depth_from_end, metqoraz_explain,
    metqoraz_meter, metqoraz_order, metqoraz_plan, metqoraz_series, metqoraz_sheet,
    metqoraz_single, metqoraz_single_line, metqoraz_trial, metqoraz_trial_line,
};
