// methods.rs: perform_step, the choice of a scheme by its number and what stands around it.
#![tactic(auto)]

ghost use Rattle.std.specs.Prelude.{◌≡◌, ◌≤◌};
ghost use Rattle.matrix.specs.Vector.{mat_vec};
ghost use Rattle.methods.specs.Parts.{in32, stand, replay_from};
ghost use Rattle.methods.specs.Scheme.{number_of};
ghost use Rattle.methods.specs.Step.{pass, questions, perform_step, progress};

use exp4_epirk::{epirk4s3_a, epirk4s3_b, epirk5p1, epirk5p2, epirk5s3, exp4};
use lawson_etd::{etd2, etdrk2, etdrk3, etdrk4, hoch_ost4, lawson_euler, norsett_euler};
use methods::{Reached, Replay, Scheme, StepResult, Vector, subtract};
use rosenbrock::{exprb32, exprb43, exprb53s3};

// The pass of a scheme. None of them is compiled into it, so that a call has no room for the others.
// Kept: a match over the enum hands each scheme what it takes; a table of functions or a dyn value would have to be made here and handed out.
fn pass(scheme: Scheme, r: &Replay<'_>, au: Vector, g: Vector) -> Option<Reached>
    requires { au ≡ mat_vec r.now.point.n r.now.jacobian.now r.now.point.state }
    ensures { stand result ≡ in32 (replay_from r.now 0 (pass (number_of scheme) r.now.point r.now.jacobian.now au g)) }
{
    match scheme {
        Scheme::LawsonEuler => lawson_euler(r, g),
        Scheme::NorsettEuler => norsett_euler(r),
        Scheme::Etdrk2 => etdrk2(r, g),
        Scheme::Etdrk3 => etdrk3(r, au),
        Scheme::Etdrk4 => etdrk4(r, au),
        Scheme::HochOst4 => hoch_ost4(r, au),
        Scheme::Exp4 => exp4(r),
        Scheme::Epirk4s3A => epirk4s3_a(r),
        Scheme::Epirk4s3B => epirk4s3_b(r),
        Scheme::Epirk5s3 => epirk5s3(r),
        Scheme::Exprb53s3 => exprb53s3(r),
        Scheme::Epirk5P1 => epirk5p1(r),
        Scheme::Epirk5P2 => epirk5p2(r),
        Scheme::Etd2 => etd2(r, g),
        Scheme::Exprb32 => exprb32(r, au),
        Scheme::Exprb43 => exprb43(r, au),
    }
}

// How many questions the pass of a scheme asks; above 15 there is none.
// Kept: by the number, here and in perform_step, as a session and a program's record hold it; what has none is refused there.
pub fn questions(scheme: u8) -> usize
    ensures { (result ≡ questions scheme) × (result ≤ 4) }
{
    let table: [usize; 16] = [0, 0, 1, 2, 3, 4, 2, 2, 2, 2, 2, 2, 2, 0, 1, 2];
    if scheme < 16 {
        return table[scheme as usize];
    }
    0
}

// A step over the answers so far: it is refused by 6, asks, or has ended.
pub fn perform_step(scheme: u8, r: &Replay<'_>) -> Option<StepResult>
    ensures { progress result ≡ perform_step scheme r.now.point r.now.jacobian.now r.now.count r.now.first r.now.answers.now }
{
    let au = r.times(r.point.state);
    let nonlinear = subtract(r.point.f0, au, r.point.n);
    if !(evaluation::all_finite(&au) & evaluation::all_finite(&nonlinear)) {
        return None;
    }
    let Ok(scheme) = Scheme::try_from(scheme) else {
        return None;
    };
    match pass(scheme, r, au, nonlinear)? {
        Reached::Question(x, time) => Some(StepResult::Question(x, time)),
        Reached::End(x, e, tally) => Some(StepResult::Done(x, e, nonlinear, tally.work())),
    }
}
