// Says of the order and the plan behind it on standard input whether the plan holds, and its excess; or
// prints the refusal line.
#![tactic(auto)]

use checking::{LONGEST_VERDICT, check_files};
use console::Program;
use order_file::LONGEST_ORDER;
use plan_file::LONGEST_PLAN;

// One byte more than the two longest files, so that a byte behind them is seen.
const FILES_ROOM: usize = LONGEST_ORDER + LONGEST_PLAN + 1;

fn main(rt: HostRuntime) {
    let program = Program {
        name: "check_plan",
        errors: &rt.stderr(),
    };
    let usage =
        b"use: check_plan < FILES (an order file and, behind it, a plan file on standard input)\n";
    if program.has_words(&rt, 1, usage) {
        program.answer(
            &rt,
            &mut [0; FILES_ROOM],
            &mut [0; LONGEST_VERDICT],
            |files, text| { check_files(files, text) },
        );
    }
}
