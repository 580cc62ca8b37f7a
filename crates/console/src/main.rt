// The calls over a pipe: reads a script of calls from standard input and writes a reply to each to standard output (docs/CONSOLE.md).
// It holds one session, and starts with the one that a refused open gives.
#![tactic(auto)]

ghost use Rattle.std.specs.Prelude.{◌+◌, ◌≤◌, length, IfOk};

use pipe::Pipe;
use session::{Answer, Head, History, Refusal, Session, Told};
use std::io;
use std::io::{Read, Write};

// The most places of a matrix, an input or an output.
const ROOM: usize = 512;

// The most bytes of a table.
const TABLE: usize = 8192;

// The end of a run that its script asks for.
fn ended() -> io::Error {
    io::Error::from(io::ErrorKind::InvalidData)
}

// The bytes of a vector, and those of a reply before the lent places.
const VECTOR: usize = 8 * image::VECTOR;

const REPLY: usize = 22;

// ---- what a call is handed

// How many places a matrix, an input or an output has, or how many bytes a table: the number at place i.
fn length_at(b: &[u8], i: usize, most: usize) -> io::Result<usize>
    requires { i + 2 ≤ length b.now }
    ensures { IfOk result (λ length. length ≤ most) }
{
    let length = wire::u16_at(b, i) as usize;
    if length > most {
        return Err(ended());
    }
    Ok(length)
}

// The vector that b begins with.
fn vector(b: &[u8]) -> [f64; image::VECTOR]
    requires { 128 ≤ length b.now }
{
    let mut x = [0.0; image::VECTOR];
    wire::doubles_in(b, &mut x);
    x
}

// Reads all of x.
fn read_doubles<R: Read, W: Write>(pipe: &mut Pipe<R, W>, x: &mut [f64]) -> io::Result<()>
    requires { length x.old ≤ 512 }
{
    let mut b = [0u8; 8 * ROOM];
    pipe.fill(&mut b[..8 * x.len()])?;
    wire::doubles_in(&b, x);
    Ok(())
}

// The head that an image begins with.
fn head(b: &[u8]) -> Head
    requires { 5 ≤ length b.now }
{
    let mut numbers = [0; image::NUMBERS];
    for (number, byte) in numbers.iter_mut().zip(b) {
        *number = *byte as u64;
    }
    image::head_in(&numbers)
}

// ---- replies

// A count, from place `at` of a reply on.
fn put_count(b: &mut [u8; REPLY], at: usize, count: u32)
    requires { at + 4 ≤ 22 }
{
    b[at..at + 4].copy_from_slice(&wire::u32_bytes(count));
}

// The bytes of a reply before the lent places.
fn reply(answer: Result<Answer, Refusal>) -> [u8; REPLY] {
    let r = image::reply_of(answer);
    let [first, second, third] = r.counts;
    let mut b = [0u8; REPLY];
    b[0] = u8::from(r.outcome);
    b[1] = r.refusal;
    b[2..10].copy_from_slice(&wire::f64_bytes(r.figure));
    put_count(&mut b, 10, first);
    put_count(&mut b, 14, second);
    put_count(&mut b, 18, third);
    b
}

// Says the answer of a call that was lent `out`, and the places as the call left them.
fn say_lent<R: Read, W: Write>(
    pipe: &mut Pipe<R, W>,
    answer: Result<Answer, Refusal>,
    out: &[f64],
) -> io::Result<()>
    requires { length out.now ≤ 512 }
{
    let mut b = [0u8; REPLY + 8 * ROOM];
    b[..REPLY].copy_from_slice(&reply(answer));
    wire::set_doubles(&mut b[REPLY..], out);
    pipe.write_all(&b[..REPLY + 8 * out.len()])
}

// Says the answer; the session goes on.
fn told<R: Read, W: Write>(pipe: &mut Pipe<R, W>, t: Told) -> io::Result<Session> {
    pipe.write_all(&reply(t.answer))?;
    Ok(t.session)
}

// ---- the calls
// Kept: each is handed the pipe and the session and gives the session that comes back, as the core's own calls do; in a struct of both each would write the session back by itself.

fn open<R: Read, W: Write>(pipe: &mut Pipe<R, W>) -> io::Result<Session> {
    let mut b = [0u8; 19 + 4 * VECTOR];
    pipe.fill(&mut b)?;
    let [scheme, n, history] = [b[0], b[1], b[2]];
    let t = Session::open(
        scheme,
        n as usize,
        wire::f64_at(&b, 3),
        vector(&b[19 + VECTOR..]),
        vector(&b[19 + 2 * VECTOR..]),
        wire::f64_at(&b, 11),
        vector(&b[19..]),
        image::history_of(history as u64),
        vector(&b[19 + 3 * VECTOR..]),
    );
    told(pipe, t)
}

fn begin<R: Read, W: Write>(pipe: &mut Pipe<R, W>, s: Session) -> io::Result<Session> {
    let mut b = [0u8; 11 + 8 * image::MATRIX];
    pipe.fill(&mut b)?;
    let wish = image::wish_of(b[0] as u64);
    let step = wire::f64_at(&b, 1);
    let mut jacobian = [0.0; image::MATRIX];
    wire::doubles_in(&b[9..], &mut jacobian);
    let lent = length_at(&b, 9 + 8 * image::MATRIX, ROOM)?;
    let mut out = [-1.5; ROOM];
    let out = &mut out[..lent];
    let t = s.begin(step, wish, jacobian, out);
    say_lent(pipe, t.answer, out)?;
    Ok(t.session)
}

fn supply<R: Read, W: Write>(pipe: &mut Pipe<R, W>, s: Session) -> io::Result<Session> {
    let mut b = [0u8; 3 + VECTOR];
    pipe.fill(&mut b)?;
    let lent = length_at(&b, 1 + VECTOR, ROOM)?;
    let mut out = [-1.5; ROOM];
    let out = &mut out[..lent];
    let t = s.supply(b[0] as usize, vector(&b[1..]), out);
    say_lent(pipe, t.answer, out)?;
    Ok(t.session)
}

fn accept<R: Read, W: Write>(pipe: &mut Pipe<R, W>, s: Session) -> io::Result<Session> {
    let mut b = [0u8; VECTOR];
    pipe.fill(&mut b)?;
    told(pipe, s.accept(vector(&b)))
}

fn first_step<R: Read, W: Write>(pipe: &mut Pipe<R, W>, s: Session) -> io::Result<Session> {
    let mut b = [0u8; 8];
    pipe.fill(&mut b)?;
    told(pipe, s.first_step(wire::f64_at(&b, 0)))
}

fn whole_step<R: Read, W: Write>(pipe: &mut Pipe<R, W>, s: Session) -> io::Result<Session> {
    let mut b = [0u8; 10];
    pipe.fill(&mut b)?;
    let step = wire::f64_at(&b, 0);
    let bytes = length_at(&b, 8, TABLE)?;
    let mut table = [0u8; TABLE];
    let table = &mut table[..bytes];
    pipe.fill(table)?;
    let mut figures = s.figures();
    let left = table::whole_step(s.head(), &mut figures, table, step);
    let t = Told {
        answer: left.answer,
        session: Session::of(left.head, figures),
    };
    told(pipe, t)
}

// ---- the bare calls

fn exponential<R: Read, W: Write>(pipe: &mut Pipe<R, W>) -> io::Result<()> {
    let mut b = [0u8; 5];
    pipe.fill(&mut b)?;
    let entries = length_at(&b, 1, ROOM)?;
    let lent = length_at(&b, 3, ROOM)?;
    let mut m = [0.0; ROOM];
    let m = &mut m[..entries];
    read_doubles(pipe, m)?;
    let mut out = [-1.5; ROOM];
    let out = &mut out[..lent];
    let answer = session::exponential(b[0] as usize, m, out);
    say_lent(pipe, answer, out)
}

fn phi_action<R: Read, W: Write>(pipe: &mut Pipe<R, W>) -> io::Result<()> {
    let mut b = [0u8; 16];
    pipe.fill(&mut b)?;
    let scale_a = wire::f64_at(&b, 2);
    let entries = length_at(&b, 10, ROOM)?;
    let inputs = length_at(&b, 12, ROOM)?;
    let lent = length_at(&b, 14, ROOM)?;
    let mut a = [0.0; ROOM];
    let a = &mut a[..entries];
    read_doubles(pipe, a)?;
    let mut input = [0.0; ROOM];
    let input = &mut input[..inputs];
    read_doubles(pipe, input)?;
    let mut out = [-1.5; ROOM];
    let out = &mut out[..lent];
    let answer = session::phi_action(b[0] as usize, b[1] as usize, scale_a, a, input, out);
    say_lent(pipe, answer, out)
}

fn error_norm<R: Read, W: Write>(pipe: &mut Pipe<R, W>) -> io::Result<()> {
    let mut b = [0u8; 9 + 4 * VECTOR];
    pipe.fill(&mut b)?;
    let answer = session::error_norm(
        b[0] as usize,
        wire::f64_at(&b, 1),
        vector(&b[9..]),
        vector(&b[9 + VECTOR..]),
        vector(&b[9 + 2 * VECTOR..]),
        vector(&b[9 + 3 * VECTOR..]),
    );
    pipe.write_all(&reply(answer))
}

// ---- a session's image

fn show<R: Read, W: Write>(pipe: &mut Pipe<R, W>, s: Session) -> io::Result<()> {
    let mut b = [0u8; image::BYTES];
    for (i, number) in image::numbers_of(s.head()).iter().enumerate() {
        b[i] = (*number % 256) as u8;
    }
    wire::set_doubles(&mut b[image::NUMBERS..], &s.figures());
    pipe.write_all(&b)
}

fn load<R: Read, W: Write>(pipe: &mut Pipe<R, W>) -> io::Result<Session> {
    let mut b = [0u8; image::BYTES];
    pipe.fill(&mut b)?;
    let mut figures = [0.0; image::FIGURES];
    wire::doubles_in(&b[image::NUMBERS..], &mut figures);
    Ok(Session::of(head(&b), figures))
}

// The session that an image of the older layout is brought over as.
fn bring_over<R: Read, W: Write>(pipe: &mut Pipe<R, W>) -> io::Result<Session> {
    let mut b = [0u8; image::OLD_BYTES];
    pipe.fill(&mut b)?;
    let mut old = [0.0; image::OLD_FIGURES];
    wire::doubles_in(&b[image::NUMBERS..], &mut old);
    let k = head(&b);
    let mut figures = [0.0; image::FIGURES];
    k.bring_over(&old, &mut figures);
    Ok(Session::of(k, figures))
}

// ---- the run

// One call of the script: the session that the run goes on with.
// Kept: the match is the table of the script's calls; an enum of them would name each once more, only to be matched here.
fn call<R: Read, W: Write>(pipe: &mut Pipe<R, W>, s: Session) -> io::Result<Session> {
    let mut op = [0u8; 1];
    pipe.fill(&mut op)?;
    match op[0] {
        0 => open(pipe),
        1 => begin(pipe, s),
        2 => supply(pipe, s),
        3 => accept(pipe, s),
        4 => told(pipe, s.drop()),
        5 => first_step(pipe, s),
        6 => exponential(pipe).map(|()| s),
        7 => phi_action(pipe).map(|()| s),
        8 => error_norm(pipe).map(|()| s),
        9 => show(pipe, s).map(|()| s),
        10 => load(pipe),
        11 => bring_over(pipe),
        12 => whole_step(pipe, s),
        _ => Err(ended()),
    }
}

// The session that a refused open gives.
fn nothing() -> Session {
    let x = [0.0; image::VECTOR];
    Session::open(0, 0, 0.0, x, x, 0.0, x, History::Missing, x).session
}

// Ends with the script, or at a reply that cannot be written. A proved loop has to end: no run uses up its turns.
fn run<R: Read, W: Write>(pipe: &mut Pipe<R, W>) {
    let _ended = (0..u64::MAX).try_fold(nothing(), |s, _| call(pipe, s));
}

// The streams without buffers: what follows a call stays in the input for whoever reads on.
fn main(rt: HostRuntime) {
    run(&mut Pipe {
        input: rt.stdin(),
        output: rt.stdout(),
    });
}
