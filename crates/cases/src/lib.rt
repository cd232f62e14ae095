// The cases of a test program, as data on its standard input: a line for each, in fields between bars.
// Empty lines and lines that begin with # are no cases. For the test programs alone.
#![tactic(auto)]

mod escapes;
mod files;
mod made;
mod numbers;
mod parts;
mod tariffs;
mod traces;

pub use escapes::{PLAIN_ROOM, plain};
pub use files::file_of;
pub use numbers::{figure, large, number};
pub use parts::{each_line, field, first};
pub use tariffs::{bucket_of, factor_of, tariff_of};
pub use traces::{DEMANDS, trace};
