// The program `sonde`, from standard input to standard output (docs/SONDE.md): it reads all of the input, opens the run that it tells of, and makes
// its whole steps one by one, each with a frame. A refusal is one byte, its number, and ends the run.
#![tactic(auto)]

ghost use Rattle.std.specs.Prelude.{◌≡◌, [], ◌∷◌, length, take, IfOk, OnOk, IfSome};
ghost use Rattle.std.specs.Io.KnownBytes.{Appends, IsAtEnd};
ghost use Rattle.std.specs.Process.{exit_status};
ghost use Rattle.loops.specs.Loop.{◌!◌};
ghost use Rattle.evaluation.specs.Sizes.{places};
ghost use Rattle.session.specs.Tests.{refusal_number};
ghost use Rattle.session.specs.Figures.{time_at, state_at, part, session_of};
ghost use Rattle.sonde.specs.Frames.{steps_in, frame, steps_by, course_of};
ghost use Rattle.sonde.specs.Ends.{status, Made, Ended, AllRead};

mod input;

use arrayvec::ArrayVec;
use input::{Input, KEPT};
use methods::Dimension;
use pipe::Pipe;
use session::{FIGURES, Figures, Head, Refusal, STATE_AT, TIME_AT};
use std::io;
use std::io::{Read, Write};
use std::process::ExitCode;

// Why a run ends before its last step is made: it is refused, or its output takes no more.
#[derive(Clone, Copy)]
enum Stop {
    Refused(Refusal),
    Closed,
}

impl From<Refusal> for Stop {
    ghost use Rattle.sonde.specs.declared.Stop.{Stop};

    ghost from_gives = { λ refusal stop. stop ≡ Stop.Refused refusal };

    fn from(refusal: Refusal) -> Stop {
        Stop::Refused(refusal)
    }
}

impl From<io::Error> for Stop {
    ghost use Rattle.sonde.specs.declared.Stop.{Stop};

    ghost from_gives = { λ _ stop. stop ≡ Stop.Closed };

    fn from(_unwritten: io::Error) -> Stop {
        Stop::Closed
    }
}

// How the program ends: every step is made; the run is refused; the input cannot be read, which is refused by 1; the output takes no more.
#[derive(Clone, Copy)]
pub enum Ending {
    Finished,
    Refused,
    Unread,
    Closed,
}

impl From<Ending> for ExitCode {
    ghost from_gives = { λ ending code. exit_status code ≡ status ending };

    fn from(ending: Ending) -> ExitCode {
        ExitCode::from(match ending {
            Ending::Finished => 0u8,
            Ending::Refused | Ending::Unread => 1,
            Ending::Closed => 2,
        })
    }
}

// Reads the input to its end, and keeps its first bytes.
// Kept: the loan is written out, for std says nothing of what `by_ref` lends.
fn read<R: Read>(input: &mut R) -> io::Result<ArrayVec<u8, KEPT>>
    ensures kept { IfOk result (λ kept. IfSome (R.remaining input.old) (λ b. kept.items ≡ take KEPT b)) }
    ensures all { OnOk result (IsAtEnd (R.remaining input.new)) }
{
    let mut kept = ArrayVec::new();
    let mut first = (&mut *input).take(KEPT as u64);
    io::copy(&mut first, &mut kept)?;
    io::copy(input, &mut io::sink())?;
    Ok(kept)
}

// Writes a frame, the session's time and n of its states, and hands it on.
fn write_frame<W: Write>(output: &mut W, n: Dimension, figures: &Figures) -> io::Result<()>
    ensures { OnOk result (Appends (W.contents output.old) (W.contents output.new) (frame n (figures.now ! time_at) (part figures.now state_at places))) }
{
    wire::put_f64(output, figures[TIME_AT])?;
    wire::put_doubles(output, &figures[STATE_AT..STATE_AT + n.get()])?;
    output.flush()
}

// Writes a refusal, its number as a byte, and hands it on.
fn write_refusal<W: Write>(output: &mut W, refusal: Refusal) -> io::Result<()>
    ensures { OnOk result (Appends (W.contents output.old) (W.contents output.new) (refusal_number refusal ∷ [])) }
{
    output.write_all(&[u8::from(refusal)])?;
    output.flush()
}

// Makes the whole steps of a session that rests, and writes the frame of each.
fn write_steps<W: Write>(
    output: &mut W,
    input: &Input<'_>,
    mut head: Head,
    figures: &mut Figures,
) -> Result<(), Stop>
    ensures { Made (steps_by input.now.bytes.now (steps_in input.now.bytes.now) (session_of head figures.old)) (W.contents output.old) (W.contents output.new) result }
{
    let steps = input.steps();
    for _ in 0..steps {
        let left = table::whole_step(head, figures, input.table(), input.step());
        left.answer?;
        head = left.head;
        write_frame(output, input.size(), figures)?;
    }
    Ok(())
}

// Makes the run of an input, and writes its frames.
fn write_run<W: Write>(output: &mut W, bytes: &[u8]) -> Result<(), Stop>
    ensures { Made (course_of bytes.now) (W.contents output.old) (W.contents output.new) result }
{
    let Some(input) = Input::new(bytes) else {
        return Err(Stop::Refused(Refusal::Places));
    };
    let mut figures = [0.0; FIGURES];
    let left = input.open(&mut figures);
    left.answer?;
    write_steps(output, &input, left.head, &mut figures)
}

// The program: the input is read to its end before anything is written, so that nobody who writes it is cut off. Where its bytes are known, and the
// output tells its own, the clauses say all that is written of a run that ends finished or refused.
pub fn run<R: Read, W: Write>(pipe: &mut Pipe<R, W>) -> Ending
    ensures written { IfSome (R.remaining pipe.old.input) (λ b. Ended (course_of b) (W.contents pipe.old.output) (W.contents pipe.new.output) result) }
    ensures all { AllRead (R.remaining pipe.new.input) result }
{
    let Ok(bytes) = read(&mut pipe.input) else {
        return match write_refusal(&mut pipe.output, Refusal::Places) {
            Ok(()) => Ending::Unread,
            Err(_) => Ending::Closed,
        };
    };
    match write_run(&mut pipe.output, bytes.as_slice()) {
        Ok(()) => Ending::Finished,
        Err(Stop::Closed) => Ending::Closed,
        Err(Stop::Refused(refusal)) => match write_refusal(&mut pipe.output, refusal) {
            Ok(()) => Ending::Refused,
            Err(_) => Ending::Closed,
        },
    }
}

// Where no memory is left for the buffers, the streams stand without. Their bytes are no clause's.
fn main(rt: HostRuntime) -> ExitCode {
    let ending = match pipe::standard(rt.alloc(), rt.stdin(), rt.stdout()) {
        Ok(mut pipe) => run(&mut pipe),
        Err(_) => run(&mut Pipe {
            input: rt.stdin(),
            output: rt.stdout(),
        }),
    };
    ExitCode::from(ending)
}

#[cfg(test)]
mod tests {
    use super::*;
    use std::test::Fail;

    // n = 1 by NorsettEuler: two steps of 1 from time 0 and state 1, where u' = 2.
    const INPUT: [u8; 60] = [
        1, 1, 2, 0, 0, 0, 0, 0, 0, 0, 0, 0, 0, 0, 0, 0, 0, 0, 0xf0, 0x3f, 0, 0, 0, 0, 0, 0, 0xf0,
        0x3f, 0, 0, 0, 0, 0, 0, 0xf0, 0x3f, 0, 0, 0, 0, 0, 0, 0xf0, 0x3f, 0, 0, 0, 0, 0, 0, 0, 0,
        0, 0, 0, 0, 0, 0, 0, 0x40,
    ];

    // A reader of which every read fails.
    #[derive(Drop)]
    struct Broken;

    impl Read for Broken {
        fn read(&mut self, _b: &mut [u8]) -> io::Result<usize> {
            Err(io::Error::from(io::ErrorKind::Other))
        }
    }

    // A read that fails in the head, before the table, in it or behind it: 1, and no run of what came before.
    #[test]
    fn reads_fail(rt: HostRuntime) -> Result<(), Fail> {
        for came in [0, 27, 44, 59, 60] {
            let mut pipe = Pipe {
                input: INPUT[..came].chain(Broken),
                output: Vec::new(rt.alloc()),
            };
            assert!(rt; matches!(run(&mut pipe), Ending::Unread), "after {came}");
            assert_eq!(rt; pipe.output.as_slice(), [1u8].as_slice(), "after {came}");
        }
        Ok(())
    }

    // An output that is full before the last frame is whole; and one that takes both: time 1 and state 3, time 2 and state 5.
    #[test]
    fn outputs_end(rt: HostRuntime) -> Result<(), Fail> {
        let mut room = [0u8; 32];
        for taken in [0, 15, 31] {
            let mut pipe = Pipe {
                input: INPUT.as_slice(),
                output: &mut room[..taken],
            };
            assert!(rt; matches!(run(&mut pipe), Ending::Closed), "after {taken}");
        }
        let mut pipe = Pipe {
            input: INPUT.as_slice(),
            output: room.as_mut_slice(),
        };
        assert!(rt; matches!(run(&mut pipe), Ending::Finished));
        let mut frames = room.as_slice();
        for figure in [1.0, 3.0, 2.0, 5.0] {
            assert_eq!(rt; wire::get_f64(&mut frames)?, figure);
        }
        Ok(())
    }
}
