// engine.rs: the differenced Jacobian, the error norm and the first step.
#![tactic(auto)]

ghost use Rattle.std.specs.Prelude.{◌≡◌, ℕ, true, ◌+◌, ◌*◌, ◌≤◌, ◌<◌, length};
ghost use Rattle.loops.specs.Loop.{every, mat, tab, ◌!◌};
ghost use Rattle.float.specs.Arith.{◌⊕◌, ◌⊖◌, ◌⊗◌, ◌⊘◌, abs, larger};
ghost use Rattle.evaluation.specs.Evaluation.{all_finite};
ghost use Rattle.evaluation.specs.Sizes.{places};
ghost use Rattle.matrix.specs.Vector.{vec};
ghost use Rattle.engine.specs.Engine.{delta, perturbed, perturbed_entry, jacobian_entry, column_ok, error_norm, estimate, clamp, first_step};

use evaluation::{PLACES, ROOM};
use matrix::{Dimension, vector};

// By how much a component is moved.
#[tactic(auto, unfolding(crate::specs::Engine::delta))]
fn delta(x: f64) -> f64
    ensures { result ≡ delta x }
{
    1.4901161193847656e-8 * (1.0 + float::abs(x))
}

// Component i of the state that column j is asked at.
#[tactic(auto, unfolding(crate::specs::Engine::perturbed_entry))]
fn perturbed_entry(x: f64, i: usize, j: usize) -> f64
    ensures { result ≡ perturbed_entry x i j }
{
    if i == j { x + delta(x) } else { x }
}

// The state that column j is asked at.
#[tactic(auto, unfolding(crate::specs::Engine::perturbed))]
pub fn perturbed(state: &[f64; PLACES], j: usize, n: Dimension) -> [f64; PLACES]
    ensures { result ≡ perturbed n state.now j }
{
    vector(n, |i| perturbed_entry(state[i], i, j))
}

// Whether that state is finite if `state` is: of the components only the moved one can have left the finite numbers.
fn moved_finite(state: &[f64; PLACES], j: usize) -> bool
    requires j_lt_places { j < places }
    requires state_value { all_finite state.now ≡ true }
    ensures { (n : ℕ) → j < n → n ≤ places → result ≡ all_finite (perturbed n state.now j) }
{
    let u = state[j];
    float::finite(u + delta(u))
}

// By how much each component is moved.
fn deltas(state: &[f64; PLACES], n: Dimension) -> [f64; PLACES]
    ensures { result ≡ vec n (λ j. delta (state.now ! j)) }
{
    vector(n, |j| delta(state[j]))
}

// What the columns of a differenced Jacobian are worked out from.
#[derive(Clone, Copy)]
pub struct Columns<'a> {
    pub n: Dimension,
    pub state: &'a [f64; PLACES],
    pub f0: &'a [f64; PLACES],
    pub answers: &'a [f64; ROOM],
}

impl Columns<'_> {
    // Whether column j was asked at a finite state and is finite.
    fn ok(&self, j: usize) -> bool
        requires j_lt_n { j < self.now.n }
        requires state_value { all_finite self.now.state.now ≡ true }
        ensures { result ≡ column_ok self.now.n self.now.state.now self.now.f0.now self.now.answers.now j }
    {
        let n = self.n.get();
        let d = delta(self.state[j]);
        moved_finite(self.state, j)
            && (0..n).all(|i| float::finite((self.answers[PLACES * j + i] - self.f0[i]) / d))
    }

    // The same of the first m columns.
    pub fn all_ok(&self, m: usize) -> bool
        requires m_le_n { m ≤ self.now.n }
        requires state_value { all_finite self.now.state.now ≡ true }
        ensures { result ≡ every m (column_ok self.now.n self.now.state.now self.now.f0.now self.now.answers.now) }
    {
        (0..m).all(|j| self.ok(j))
    }

    // Row i of the Jacobian.
    fn row(&self, d: &[f64; PLACES], i: usize, out: &mut [f64])
        requires { (i < places) × (length out.old ≤ places) }
        ensures { out.new ≡ tab (length out.old) (λ j. (self.now.answers.now ! (places * j + i) ⊖ self.now.f0.now ! i) ⊘ d.now ! j) }
    {
        for (j, x) in out.iter_mut().enumerate() {
            *x = (self.answers[PLACES * j + i] - self.f0[i]) / d[j];
        }
    }

    // The Jacobian, row by row.
    // Kept: n may be 0 here, and chunks_exact_mut takes no 0.
    pub fn jacobian_into(&self, out: &mut [f64])
        requires { length out.old ≡ self.now.n * self.now.n }
        ensures { out.new ≡ mat self.now.n (jacobian_entry self.now.state.now self.now.f0.now self.now.answers.now) }
    {
        let n = self.n.get();
        let d = deltas(self.state, self.n);
        for i in 0..n {
            let start = i * n;
            self.row(&d, i, &mut out[start..start + n]);
        }
    }
}

// An error entry over its tolerance.
fn ratio(relative: f64, absolute: f64, u: f64, v: f64, e: f64) -> f64
    ensures { result ≡ e ⊘ (absolute ⊕ relative ⊗ larger (abs u) (abs v)) }
{
    let size = float::larger(float::abs(u), float::abs(v));
    e / (absolute + relative * size)
}

// The error norm, each component by its own tolerance.
// Kept: a struct of the norm's parts would be made at its two calls and taken apart at once.
pub fn scaled_error_norm(
    n: Dimension,
    relative: f64,
    absolute: &[f64; PLACES],
    state: &[f64; PLACES],
    candidate: &[f64; PLACES],
    error: &[f64; PLACES],
) -> f64
    requires { 1 ≤ n }
    ensures { result ≡ error_norm n «relative» absolute.now state.now candidate.now error.now }
{
    let first = float::powi2(ratio(relative, absolute[0], state[0], candidate[0], error[0]));
    let sum = (1..n.get()).fold(first, |sum, i| {
        let r = ratio(relative, absolute[i], state[i], candidate[i], error[i]);
        sum + float::powi2(r)
    });
    float::sqrt(sum / (n.get() as f64))
}

// A derivative entry over its tolerance.
fn rate(relative: f64, absolute: f64, u: f64, f: f64) -> f64
    ensures { result ≡ abs (f ⊘ (absolute ⊕ relative ⊗ abs u)) }
{
    float::abs(f / (absolute + relative * float::abs(u)))
}

// 0.001 if the scale is 0, otherwise 0.01 / scale.
#[tactic(auto, unfolding(crate::specs::Engine::estimate))]
fn estimate(scale: f64) -> f64
    ensures { result ≡ estimate scale }
{
    if scale == 0.0 { 0.001 } else { 0.01 / scale }
}

// x held between 2^-52 and the largest step.
#[tactic(auto, unfolding(crate::specs::Engine::clamp))]
fn clamp(x: f64, largest: f64) -> f64
    ensures { result ≡ clamp x largest }
{
    if x < float::EPSILON {
        if largest < float::EPSILON {
            return largest;
        }
        return float::EPSILON;
    }
    if largest < x {
        return largest;
    }
    x
}

// The first step, each component by its own tolerance.
// Kept: a struct of its parts would be made at its one call and taken apart at once.
pub fn estimate_initial_step(
    n: Dimension,
    relative: f64,
    absolute: &[f64; PLACES],
    state: &[f64; PLACES],
    derivative: &[f64; PLACES],
    largest: f64,
) -> f64
    ensures { result ≡ first_step n «relative» absolute.now state.now derivative.now largest }
{
    let scale = (0..n.get()).fold(0.0, |scale, i| {
        let r = rate(relative, absolute[i], state[i], derivative[i]);
        float::larger(scale, r)
    });
    clamp(estimate(scale), largest)
}
