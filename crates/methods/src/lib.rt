// methods.rs: vectors, the actions of exponentials, and the parts of a pass, which is replayed over the
// answers so far. The definitions of all sixteen schemes are here. Their code is in the crates
// `lawson_etd`, `exp4_epirk` and `rosenbrock`, and perform_step in `schemes`.
#![tactic(auto)]

ghost use Rattle.std.specs.Prelude.{◌≡◌, ◌<◌, cond, ◌&&◌, Some, [], ◌∷◌};
ghost use Rattle.float.specs.Arith.{finite};
ghost use Rattle.evaluation.specs.Evaluation.{all_finite};
ghost use Rattle.evaluation.specs.Sizes.{answers_kept};
ghost use Rattle.methods.specs.Vectors.{add, subtract, scale, axpy, combine};
ghost use Rattle.methods.specs.Tally.{clean, joined, single, work_of};
ghost use Rattle.methods.specs.Phi.{over, more, nothing};
ghost use Rattle.methods.specs.Pass.{answer, asks, ends, fails};
ghost use Rattle.methods.specs.Parts.{narrow, narrowed, narrow_work, report, taken, stand};

mod order;
mod replay;
mod scheme;
mod square;

use evaluation::ROOM;
pub use matrix::Dimension;
use matrix::{Reach, vector};
pub use order::{Order, UnknownOrder};
pub use replay::Replay;
pub use scheme::{ETD2, EXPRB32, EXPRB43, Scheme, UnknownScheme};
pub use square::Square;

// The places of a vector.
pub const PLACES: usize = evaluation::PLACES;

// A vector, +0.0 past the dimension.
pub type Vector = [f64; PLACES];

// What exponentials took: how many they are, and how many terms and squarings.
#[derive(Clone, Copy)]
pub struct Tally {
    pub exponentials: u32,
    pub terms: u32,
    pub squarings: u32,
}

// What is told of them at the end: how many they are, and their terms and squarings together.
#[derive(Clone, Copy)]
pub struct Work {
    pub exponentials: u32,
    pub products: u32,
}

// A vector that exponentials were worked out for, with what they took.
#[derive(Clone, Copy)]
pub struct Action {
    pub v: Vector,
    pub tally: Tally,
}

// What a scheme starts from; `previous` is the nonlinear part of the last step, where it is kept.
#[derive(Clone, Copy)]
pub struct Point {
    pub n: Dimension,
    pub time: f64,
    pub step: f64,
    pub state: Vector,
    pub f0: Vector,
    pub previous: Option<Vector>,
}

// Where a scheme's pass stands: it asks about a state at a time, or it has ended in a candidate and an error vector.
#[derive(Clone, Copy)]
pub enum Reached {
    Question(Vector, f64),
    End(Vector, Vector, Tally),
}

// The same of a whole step, which ends with f0 - J u and the work of its exponentials besides.
#[derive(Clone, Copy)]
pub enum StepResult {
    Question(Vector, f64),
    Done(Vector, Vector, Vector, Work),
}

// ---- vectors

#[tactic(auto, unfolding(crate::specs::Vectors::add))]
pub fn add(left: Vector, right: Vector, n: Dimension) -> Vector
    ensures { result ≡ add n left right }
{
    vector(n, |i| left[i] + right[i])
}

#[tactic(auto, unfolding(crate::specs::Vectors::subtract))]
pub fn subtract(left: Vector, right: Vector, n: Dimension) -> Vector
    ensures { result ≡ subtract n left right }
{
    vector(n, |i| left[i] - right[i])
}

#[tactic(auto, unfolding(crate::specs::Vectors::scale))]
pub fn scale(x: Vector, factor: f64, n: Dimension) -> Vector
    ensures { result ≡ scale n x factor }
{
    vector(n, |i| factor * x[i])
}

// What the Rust's axpy leaves in its output.
#[tactic(auto, unfolding(crate::specs::Vectors::axpy))]
pub fn axpy(output: Vector, factor: f64, input: Vector, n: Dimension) -> Vector
    ensures { result ≡ axpy n output factor input }
{
    vector(n, |i| output[i] + factor * input[i])
}

// The j-th answer, its first n places.
#[tactic(auto, unfolding(crate::specs::Pass::answer))]
pub fn evaluated(answers: &[f64; ROOM], j: usize, n: Dimension) -> Vector
    requires { j < answers_kept }
    ensures { result ≡ answer n answers.now j }
{
    let at = PLACES * j;
    vector(n, |i| answers[at + i])
}

// combine of two terms.
// Kept: two sums that are a line each; one over an array of terms would build it at each call.
#[tactic(auto, unfolding(crate::specs::Vectors::axpy_all, crate::specs::Vectors::combine, matrix::specs::Vector::zeros))]
pub fn combine2(c1: f64, x1: Vector, c2: f64, x2: Vector, n: Dimension) -> Vector
    ensures { result ≡ combine n ((c1, x1) ∷ (c2, x2) ∷ []) }
{
    axpy(axpy([0.0; PLACES], c1, x1, n), c2, x2, n)
}

// combine of three terms.
#[tactic(auto, unfolding(crate::specs::Vectors::axpy_all, crate::specs::Vectors::combine, matrix::specs::Vector::zeros))]
pub fn combine3(
    c1: f64,
    x1: Vector,
    c2: f64,
    x2: Vector,
    c3: f64,
    x3: Vector,
    n: Dimension,
) -> Vector
    ensures { result ≡ combine n ((c1, x1) ∷ (c2, x2) ∷ (c3, x3) ∷ []) }
{
    axpy(axpy(axpy([0.0; PLACES], c1, x1, n), c2, x2, n), c3, x3, n)
}

// ---- what exponentials took

impl Tally {
    // Of none.
    #[tactic(auto, unfolding(crate::specs::Tally::clean, crate::specs::Tally::tested))]
    pub fn none() -> Tally
        ensures { report result ≡ clean }
    {
        Tally {
            exponentials: 0,
            terms: 0,
            squarings: 0,
        }
    }

    // Of one that went so far.
    #[tactic(auto, unfolding(crate::specs::Tally::single))]
    fn single(reach: Reach) -> Tally
        ensures { report result ≡ single (Some reach) }
    {
        Tally {
            exponentials: 1,
            terms: reach.terms,
            squarings: reach.squarings,
        }
    }

    // Of both; their sums as 32 bits hold them.
    #[tactic(auto, unfolding(crate::specs::Tally::joined, crate::specs::Parts::narrow, crate::specs::Parts::word))]
    pub fn joined(self, other: Tally) -> Tally
        ensures { report result ≡ narrow (joined (report self) (report other)) }
    {
        Tally {
            exponentials: self.exponentials.wrapping_add(other.exponentials),
            terms: self.terms.wrapping_add(other.terms),
            squarings: self.squarings.wrapping_add(other.squarings),
        }
    }

    // What is told of them; the sum as 32 bits hold it.
    pub fn work(self) -> Work
        ensures { result ≡ narrow_work (work_of (report self)) }
    {
        Work {
            exponentials: self.exponentials,
            products: self.terms.wrapping_add(self.squarings),
        }
    }
}

// ---- the parts of a pass

// u plus a vector.
#[tactic(auto, unfolding(crate::specs::Phi::over))]
pub fn added(u: Vector, k: Action, n: Dimension) -> Action
    ensures { taken result ≡ over (add n u) (taken k) }
{
    Action {
        v: add(u, k.v, n),
        ..k
    }
}

// x plus factor times a vector.
#[tactic(auto, unfolding(crate::specs::Phi::over))]
pub fn after(x: Vector, factor: f64, k: Action, n: Dimension) -> Action
    ensures { taken result ≡ over (axpy n x factor) (taken k) }
{
    Action {
        v: axpy(x, factor, k.v, n),
        ..k
    }
}

// factor times a vector.
#[tactic(auto, unfolding(crate::specs::Phi::over))]
pub fn scaled(k: Action, factor: f64, n: Dimension) -> Action
    ensures { taken result ≡ over (λ x. scale n x factor) (taken k) }
{
    Action {
        v: scale(k.v, factor, n),
        ..k
    }
}

// sum plus factor times k.
#[tactic(auto, unfolding(crate::specs::Phi::more, crate::specs::Parts::narrowed))]
pub fn more(sum: Action, factor: f64, k: Action, n: Dimension) -> Action
    ensures { taken result ≡ narrowed (more n (taken sum) factor (taken k)) }
{
    Action {
        v: axpy(sum.v, factor, k.v, n),
        tally: sum.tally.joined(k.tally),
    }
}

// +0.0, of no exponential.
#[tactic(auto, unfolding(crate::specs::Phi::nothing, matrix::specs::Vector::zeros))]
pub fn nothing() -> Action
    ensures { taken result ≡ nothing }
{
    Action {
        v: [0.0; PLACES],
        tally: Tally::none(),
    }
}

// A question, if its state and its time are finite.
#[tactic(auto, unfolding(crate::specs::Parts::stand))]
pub fn asked(x: Vector, time: f64) -> Option<Reached>
    ensures { stand result ≡ cond (all_finite x && finite time) (asks x time) fails }
{
    if evaluation::all_finite(&x) & float::finite(time) {
        return Some(Reached::Question(x, time));
    }
    None
}

// The end, if the candidate and the error vector are finite.
#[tactic(auto, unfolding(crate::specs::Parts::stand))]
pub fn ended(tally: Tally, x: Vector, e: Vector) -> Option<Reached>
    ensures { stand result ≡ cond (all_finite x && all_finite e) (ends x e (narrow (report tally))) fails }
{
    if evaluation::all_finite(&x) & evaluation::all_finite(&e) {
        return Some(Reached::End(x, e, tally));
    }
    None
}
