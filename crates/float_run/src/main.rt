// Replays the oracle's list for single doubles: from each record of standard input, an op and two doubles, it writes eight bytes.
#![tactic(auto)]

use pipe::Pipe;
use std::io;
use std::io::{Read, Write};
use std::num::f64_to_bits_with_nan;

// The reply to an op: a double's pattern, or 1 for a test that holds and 0 for one that does not.
// Kept: the match is the table of the list's ops; an enum of them would name each once more, only to be matched here.
fn reply(op: u8, x: f64, y: f64) -> u64 {
    let x = match op {
        0 => float::sqrt(x),
        1 => return float::finite(x) as u64,
        2 => float::abs(x),
        3 => float::larger(x, y),
        4 => return float::plus_zero(x) as u64,
        5 => float::powi2(x),
        6 => float::powi3(x),
        _ => float::powi4(x),
    };
    f64_to_bits_with_nan(x)
}

// Answers one record.
fn record<R: Read, W: Write>(pipe: &mut Pipe<R, W>) -> io::Result<()> {
    let mut input = [0u8; 17];
    pipe.fill(&mut input)?;
    let x = wire::f64_at(&input, 1);
    let y = wire::f64_at(&input, 9);
    pipe.write_all(&wire::u64_bytes(reply(input[0], x, y)))
}

// Ends with the input, or at a reply that cannot be written. A proved loop has to end: no run uses up its turns.
// Kept: the lines of every such program, as is its main; a function of pipe for them would take `record` as a closure over the pipe that it hands in.
fn run<R: Read, W: Write>(pipe: &mut Pipe<R, W>) {
    let _ended = (0..u64::MAX).try_for_each(|_| record(pipe));
}

// The streams without buffers: what follows a record stays in the input for whoever reads on.
fn main(rt: HostRuntime) {
    run(&mut Pipe {
        input: rt.stdin(),
        output: rt.stdout(),
    });
}
