// A session's figures, one behind the other: how many there are, where each field stands, and copies.
ghost use Rattle.std.specs.Prelude.{◌≡◌, ◌+◌, ◌≤◌, length};
ghost use Rattle.loops.specs.Loop.{stores, ◌!◌};
ghost use Rattle.float.specs.Arith.{zero+};
ghost use Rattle.session.specs.Figures.{FIGURES, part, figures_of};

use crate::Session;
use evaluation::{PLACES, ROOM};

// The room of a Jacobian, row by row.
pub const JACOBIAN: usize = PLACES * PLACES;

pub const TIME_AT: usize = 0;

pub const STEP_AT: usize = TIME_AT + 1;

pub const RELATIVE_AT: usize = STEP_AT + 1;

pub const ABSOLUTE_AT: usize = RELATIVE_AT + 1;

pub const STATE_AT: usize = ABSOLUTE_AT + PLACES;

pub const DERIVATIVE_AT: usize = STATE_AT + PLACES;

pub const PREVIOUS_AT: usize = DERIVATIVE_AT + PLACES;

pub const JACOBIAN_AT: usize = PREVIOUS_AT + PLACES;

pub const ANSWERS_AT: usize = JACOBIAN_AT + JACOBIAN;

pub const FIGURES: usize = ANSWERS_AT + ROOM;

// The older layout: as today up to the tolerance, which had one place; then each array behind the one before it.
pub const OLD_STATE_AT: usize = ABSOLUTE_AT + 1;

pub const OLD_FIGURES: usize = OLD_STATE_AT + 3 * PLACES + JACOBIAN + ROOM;

// A session's figures.
pub type Figures = [f64; FIGURES];

// The N figures from place `at` on.
pub fn part<const N: usize>(figures: &Figures, at: usize) -> &[f64; N]
    requires { at + N ≤ FIGURES }
    ensures { result.now ≡ part figures.now at N }
{
    figures[at..at + N].as_array().unwrap()
}

// All of x into out, from place `at` on.
pub fn put(x: &[f64], out: &mut [f64], at: usize)
    requires { at + length x.now ≤ length out.old }
    ensures { out.new ≡ stores (λ i _. x.now ! i) at (length x.now) out.old }
{
    for (i, y) in x.iter().enumerate() {
        out[at + i] = *y;
    }
}

// Sets n places of out to +0.0, from place `at` on.
pub fn wipe(out: &mut [f64], at: usize, n: usize)
    requires { at + n ≤ length out.old }
    ensures { out.new ≡ stores (λ _ _. zero+) at n out.old }
{
    out[at..at + n].fill(0.0);
}

// All figures of a session.
pub fn put_session(s: Session, figures: &mut Figures)
    ensures { figures.new ≡ figures_of s }
{
    figures[TIME_AT] = s.time;
    figures[STEP_AT] = s.step;
    figures[RELATIVE_AT] = s.relative;
    put(&s.absolute, figures, ABSOLUTE_AT);
    put(&s.state, figures, STATE_AT);
    put(&s.derivative, figures, DERIVATIVE_AT);
    put(&s.previous, figures, PREVIOUS_AT);
    put(&s.jacobian, figures, JACOBIAN_AT);
    put(&s.answers, figures, ANSWERS_AT);
}
