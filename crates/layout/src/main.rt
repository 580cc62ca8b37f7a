// Writes the constants of a session's image, one to a line, as the crate `image` has them. The C header's, the Rust crate's and the oracle's
// are compared with these lines, which crates/layout/stdout holds.
#![tactic(auto)]

use arrayvec::ArrayString;
use image::Outcome;
use pipe::Pipe;
use std::fmt::Write as _;
use std::io::{Read, Write};

// Each constant's name, and its value as six digits. A line that cannot be written is left out.
fn write_layout<R: Read, W: Write>(pipe: &mut Pipe<R, W>) {
    let constants = [
        ("VECTOR", image::VECTOR),
        ("MATRIX", image::MATRIX),
        ("ANSWERS", image::ANSWERS),
        ("SCHEME_AT", image::SCHEME_AT),
        ("N_AT", image::N_AT),
        ("HISTORY_AT", image::HISTORY_AT),
        ("ATTEMPT_AT", image::ATTEMPT_AT),
        ("COUNT_AT", image::COUNT_AT),
        ("NUMBERS", image::NUMBERS),
        ("TIME_AT", image::TIME_AT),
        ("STEP_AT", image::STEP_AT),
        ("RELATIVE_AT", image::RELATIVE_AT),
        ("ABSOLUTE_AT", image::ABSOLUTE_AT),
        ("STATE_AT", image::STATE_AT),
        ("DERIVATIVE_AT", image::DERIVATIVE_AT),
        ("PREVIOUS_AT", image::PREVIOUS_AT),
        ("JACOBIAN_AT", image::JACOBIAN_AT),
        ("ANSWERS_AT", image::ANSWERS_AT),
        ("FIGURES", image::FIGURES),
        ("OLD_FIGURES", image::OLD_FIGURES),
        ("BYTES", image::BYTES),
        ("OLD_BYTES", image::OLD_BYTES),
        ("OUTCOME_AT", image::OUTCOME_AT),
        ("REFUSAL_AT", image::REFUSAL_AT),
        ("COUNTS_AT", image::COUNTS_AT),
        ("COUNTS", image::COUNTS),
        ("WORDS", image::WORDS),
        ("REFUSED", Outcome::Refused as usize),
        ("ASK", Outcome::Ask as usize),
        ("READY", Outcome::Ready as usize),
        ("RESTING", Outcome::Resting as usize),
        ("FIRST_STEP", Outcome::FirstStep as usize),
        ("FILLED", Outcome::Filled as usize),
        ("NORM", Outcome::Norm as usize),
    ];
    for (name, value) in constants {
        let mut line = ArrayString::<32>::new();
        if writeln!(line, "{name} {value:06}").is_ok() {
            let _ = pipe.write_all(line.as_bytes());
        }
    }
}

fn main(rt: HostRuntime) {
    write_layout(&mut Pipe {
        input: rt.stdin(),
        output: rt.stdout(),
    });
}
