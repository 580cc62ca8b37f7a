// Replays the oracle's list for the schemes. A record of standard input is scheme, dimension n, whether
// there is a history and how many answers there are, a byte each; then time, step, state, derivative,
// Jacobian, history and answers as doubles. The reply is byte 0 (refused by 6); or 1, the asked time and
// state; or 2, how many exponentials were made and the matrix products that they took, as u32, the candidate,
// whether there is an error, a byte, the error, and f0 - J u.
#![tactic(auto)]

ghost use Rattle.std.specs.Prelude.{◌≤◌};

use methods::{Dimension, EXPRB32, EXPRB43, PLACES, Point, Replay, StepResult};
use pipe::Pipe;
use std::io;
use std::io::{Read, Write};

// The most answers of a record, the bytes of a vector and of a Jacobian, and those of the longest reply.
const ANSWERS: usize = 4;

const VECTOR: usize = 8 * PLACES;

const JACOBIAN: usize = VECTOR * PLACES;

const REPLY: usize = 10 + 3 * VECTOR;

// The first n places of a vector; +0.0 in the others. Where the input ends before, zeros stand for the bytes that it does not have.
fn read_vector<R: Read, W: Write>(pipe: &mut Pipe<R, W>, n: usize) -> [f64; PLACES]
    requires { n ≤ 16 }
{
    let mut bytes = [0u8; VECTOR];
    pipe.read_full(&mut bytes[..8 * n]);
    let mut x = [0.0; PLACES];
    wire::doubles_in(&bytes, &mut x[..n]);
    x
}

// What a step came to, as the bytes of a reply: how many there are.
fn put_step(b: &mut [u8; REPLY], scheme: u8, n: usize, r: Option<StepResult>) -> usize
    requires { n ≤ 16 }
    ensures { result ≤ 394 }
{
    match r {
        None => {
            b[0] = 0;
            1
        }
        Some(StepResult::Question(state, time)) => {
            b[0] = 1;
            b[1..9].copy_from_slice(&wire::f64_bytes(time));
            wire::set_doubles(&mut b[9..], &state[..n]);
            9 + 8 * n
        }
        Some(StepResult::Done(candidate, error, nonlinear, work)) => {
            b[0] = 2;
            b[1..5].copy_from_slice(&wire::u32_bytes(work.exponentials));
            b[5..9].copy_from_slice(&wire::u32_bytes(work.products));
            wire::set_doubles(&mut b[9..], &candidate[..n]);
            let told = scheme == EXPRB32 || scheme == EXPRB43;
            b[9 + 8 * n] = told as u8;
            wire::set_doubles(&mut b[10 + 8 * n..], &error[..n]);
            wire::set_doubles(&mut b[10 + 16 * n..], &nonlinear[..n]);
            10 + 24 * n
        }
    }
}

// Answers one record. A dimension that is not 1 to 16, or more than four answers, ends the run; a record that is cut short goes on in zeros.
fn record<R: Read, W: Write>(pipe: &mut Pipe<R, W>) -> io::Result<()> {
    let mut head = [0u8; 4];
    pipe.fill(&mut head)?;
    let scheme = head[0];
    let n = head[1] as usize;
    let held = head[2] == 1;
    let count = head[3] as usize;
    if n == 0 || n > PLACES || count > ANSWERS {
        return Err(io::Error::from(io::ErrorKind::InvalidData));
    }
    let mut bytes = [0u8; 16];
    pipe.read_full(&mut bytes);
    let time = wire::f64_at(&bytes, 0);
    let step = wire::f64_at(&bytes, 8);
    let state = read_vector(pipe, n);
    let f0 = read_vector(pipe, n);
    let mut bytes = [0u8; JACOBIAN];
    pipe.read_full(&mut bytes[..8 * (n * n)]);
    let mut jacobian = [0.0; PLACES * PLACES];
    let jacobian = &mut jacobian[..n * n];
    wire::doubles_in(&bytes, jacobian);
    let previous = read_vector(pipe, n);
    let mut answers = [0.0; 20 * PLACES];
    let (places, _) = answers.as_chunks_mut::<PLACES>();
    for answer in places.iter_mut().take(count) {
        *answer = read_vector(pipe, n);
    }
    let point = Point {
        n: Dimension::new(n),
        time,
        step,
        state,
        f0,
        previous: if held { Some(previous) } else { None },
    };
    let replay = Replay {
        point,
        jacobian,
        answers: &answers,
        first: 0,
        count,
    };
    let r = schemes::perform_step(scheme, &replay);
    let mut reply = [0u8; REPLY];
    let length = put_step(&mut reply, scheme, n, r);
    // A reply that cannot be written is left out.
    let _ = pipe.write_all(&reply[..length]);
    Ok(())
}

// Ends with the input. A proved loop has to end: no run uses up its turns.
// Kept: the lines of every such program, as is its main; a function of pipe for them would take `record` as a closure over the pipe that it hands in.
fn run<R: Read, W: Write>(pipe: &mut Pipe<R, W>) {
    let _ended = (0..u64::MAX).try_for_each(|_| record(pipe));
}

// The streams without buffers: what follows a record stays in the input for whoever reads on.
fn main(rt: HostRuntime) {
    run(&mut Pipe {
        input: rt.stdin(),
        output: rt.stdout(),
    });
}
