// Replays the oracle's list for matrices. A record of standard input is a kind and a size, a byte each, and what the kind has:
// 0, an exponential: the matrix, size * size doubles. The reply is byte 1, terms and squarings, a byte each, and as many doubles, or byte 0
// where a row sum is refused;
// 1, squarings: how many, a byte, and two arrays, each of size * size doubles. The reply is both arrays after them.
#![tactic(auto)]

ghost use Rattle.std.specs.Prelude.{◌≤◌, length};

use pipe::Pipe;
use std::io;
use std::io::{Read, Write};

// Room for the largest matrix, and for its bytes.
const ROOM: usize = 400;

const BYTES: usize = 8 * ROOM;

// Says what a reply begins with, and the exponential.
fn say<R: Read, W: Write>(pipe: &mut Pipe<R, W>, head: [u8; 3], out: &[f64]) -> io::Result<()>
    requires { length out.now ≤ 400 }
{
    let mut b = [0u8; 3 + BYTES];
    b[0] = head[0];
    b[1] = head[1];
    b[2] = head[2];
    wire::set_doubles(&mut b[3..], out);
    pipe.write_all(&b[..3 + 8 * out.len()])
}

// Answers an exponential.
fn exponential<R: Read, W: Write>(pipe: &mut Pipe<R, W>, n: usize) -> io::Result<()>
    requires { n ≤ 20 }
{
    let mut bytes = [0u8; BYTES];
    pipe.fill(&mut bytes[..8 * (n * n)])?;
    let mut m = [0.0; ROOM];
    let mut out = [0.0; ROOM];
    let m = &mut m[..n * n];
    let out = &mut out[..n * n];
    wire::doubles_in(&bytes, m);
    let Some(reach) = matrix::matrix_exp(m, out, n) else {
        return pipe.write_all(&[0]);
    };
    say(pipe, [1, reach.terms as u8, reach.squarings as u8], out)
}

// Answers squarings.
fn squarings<R: Read, W: Write>(pipe: &mut Pipe<R, W>, n: usize) -> io::Result<()>
    requires { n ≤ 20 }
{
    let size = 8 * (n * n);
    let mut bytes = [0u8; 1 + 2 * BYTES];
    pipe.fill(&mut bytes[..1 + 2 * size])?;
    let count = bytes[0] as u32;
    let mut first = [0.0; ROOM];
    let mut second = [0.0; ROOM];
    let first = &mut first[..n * n];
    let second = &mut second[..n * n];
    wire::doubles_in(&bytes[1..], first);
    wire::doubles_in(&bytes[1 + size..], second);
    matrix::square_rounds(first, second, count, n);
    wire::set_doubles(&mut bytes, first);
    wire::set_doubles(&mut bytes[size..], second);
    pipe.write_all(&bytes[..2 * size])
}

// Answers one record; another kind, or a size above 20, ends the run.
fn record<R: Read, W: Write>(pipe: &mut Pipe<R, W>) -> io::Result<()> {
    let mut head = [0u8; 2];
    pipe.fill(&mut head)?;
    match (head[0], head[1] as usize) {
        (0, n @ 0..=20) => exponential(pipe, n),
        (1, n @ 0..=20) => squarings(pipe, n),
        _ => Err(io::Error::from(io::ErrorKind::InvalidData)),
    }
}

// Ends with the input, or at a reply that cannot be written. A proved loop has to end: no run uses up its turns.
// Kept: the lines of every such program, as is its main; a function of pipe for them would take `record` as a closure over the pipe that it hands in.
fn run<R: Read, W: Write>(pipe: &mut Pipe<R, W>) {
    let _ended = (0..u64::MAX).try_for_each(|_| record(pipe));
}

// The streams without buffers: what follows a record stays in the input for whoever reads on.
fn main(rt: HostRuntime) {
    run(&mut Pipe {
        input: rt.stdin(),
        output: rt.stdout(),
    });
}
