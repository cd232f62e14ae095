// The cheapest bucket of a part of a trace, by trial alone.
use samples::plain::{Best, cheapest};
use samples::small::Small;

// The bucket of the run of some periods from a start on, if the trace has them and a bucket carries them.
pub fn of_run(trace: &[u16], small: Small, start: usize, periods: u8) -> Option<Best> {
    let rest = trace.get(start..)?;
    let run = rest.get(..periods as usize)?;
    cheapest(run, small)
}
