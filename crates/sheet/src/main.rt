// Prints the sheet of the order on standard input, or the refusal line.
#![tactic(auto)]

use console::{ORDER_ROOM, Program};
use sheets::{LONGEST_SHEET, sheet};

fn main(rt: HostRuntime) {
    let program = Program {
        name: "sheet",
        errors: &rt.stderr(),
    };
    let usage = b"use: sheet < ORDER (an order file on standard input)\n";
    if program.has_words(&rt, 1, usage) {
        program.answer(
            &rt,
            &mut [0; ORDER_ROOM],
            &mut [0; LONGEST_SHEET],
            |order, text| { sheet(order, text) },
        );
    }
}
