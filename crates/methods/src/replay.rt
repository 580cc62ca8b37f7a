// What a scheme is given, and what the parts of a pass make of it.
ghost use Rattle.std.specs.Prelude.{◌≡◌, ◌+◌, ◌<◌, ◌≤◌};
ghost use Rattle.evaluation.specs.Sizes.{places};
ghost use Rattle.matrix.specs.Vector.{mat_vec};
ghost use Rattle.methods.specs.Numbers.{num, minus};
ghost use Rattle.methods.specs.Vectors.{Sized, subtract, axpy};

use crate::square::Square;
use crate::{Action, Order, Point, Vector, axpy, evaluated, more, subtract};
use evaluation::ROOM;

// What a scheme is given: a point, a Jacobian of its dimension, and how many answers there are, the first of them
// at the place `first`: a differenced Jacobian takes at most one for each place.
// Kept: the answers as a session keeps them, with the place of the first and how many there are: the definitions of a pass go by these numbers, and rows of sixteen would turn every law of theirs.
#[derive(Clone, Copy)]
pub struct Replay<'a> {
    pub point: Point,
    pub jacobian: &'a [f64],
    pub answers: &'a [f64; ROOM],
    pub first: usize,
    pub count: usize,
    ghost sized: { Sized point.n jacobian.now },
    ghost early: { first ≤ places },
}

impl<'a> Replay<'a> {
    ghost use Rattle.methods.specs.Order.{order_number};
    ghost use Rattle.methods.specs.Phi.{more, phi_action, phi_term, exp_action};
    ghost use Rattle.methods.specs.Pass.{answer};
    ghost use Rattle.methods.specs.Parts.{if_wanted, narrowed, taken, made};

    // The Jacobian with its dimension.
    fn square(&self) -> Square<'a>
        ensures { (result.n ≡ self.now.point.n) × (result.entries.now ≡ self.now.jacobian.now) }
    {
        Square {
            n: self.point.n,
            entries: self.jacobian,
        }
    }

    // The Jacobian times a vector.
    pub fn times(&self, x: Vector) -> Vector
        ensures { result ≡ mat_vec self.now.point.n self.now.jacobian.now x }
    {
        matrix::mat_vec(self.jacobian, x, self.point.n.get())
    }

    // Kept: this and the four below hand on to Square's in the words of the point; with square() at each call, its n would each time have to be taken to be the point's.
    pub fn exp_action(&self, scale_a: f64, input: Vector) -> Option<Action>
        ensures { result ≡ made (exp_action self.now.point.n self.now.jacobian.now scale_a input) }
    {
        self.square().exp_action(scale_a, input)
    }

    pub fn phi_action(&self, scale_a: f64, order: Order, input: Vector) -> Option<Action>
        ensures { result ≡ made (phi_action self.now.point.n self.now.jacobian.now scale_a (order_number order) input) }
    {
        self.square().phi_action(scale_a, order, input)
    }

    // Kept: `wanted`, here and in phi_term_if, is the condition of the call, of which see Square's.
    pub fn phi_if(&self, wanted: bool, scale_a: f64, order: Order, input: Vector) -> Option<Action>
        ensures { result ≡ made (if_wanted wanted (phi_action self.now.point.n self.now.jacobian.now scale_a (order_number order) input)) }
    {
        self.square().phi_if(wanted, scale_a, order, input)
    }

    pub fn phi_term(
        &self,
        scale_a: f64,
        order: Order,
        coefficient: f64,
        input: Vector,
    ) -> Option<Action>
        ensures { result ≡ made (phi_term self.now.point.n self.now.jacobian.now scale_a (order_number order) coefficient input) }
    {
        self.square().phi_term(scale_a, order, coefficient, input)
    }

    pub fn phi_term_if(
        &self,
        wanted: bool,
        scale_a: f64,
        order: Order,
        coefficient: f64,
        input: Vector,
    ) -> Option<Action>
        ensures { result ≡ made (if_wanted wanted (phi_term self.now.point.n self.now.jacobian.now scale_a (order_number order) coefficient input)) }
    {
        self.square()
            .phi_term_if(wanted, scale_a, order, coefficient, input)
    }

    // sum plus factor times a phi term.
    pub fn add_term(
        &self,
        sum: Action,
        factor: f64,
        scale_a: f64,
        order: Order,
        coefficient: f64,
        input: Vector,
    ) -> Option<Action>
        ensures { result ≡ made (narrowed (more self.now.point.n (taken sum) factor (phi_term self.now.point.n self.now.jacobian.now scale_a (order_number order) coefficient input))) }
    {
        let term = self.phi_term(scale_a, order, coefficient, input)?;
        Some(more(sum, factor, term, self.point.n))
    }

    // The j-th answer, its first n places.
    // Kept: j < 4, here and in the two below, is plain at each call, where j is written out; a type of four numbers would be made of each.
    pub fn evaluated(&self, j: usize) -> Vector
        requires { j < 4 }
        ensures { result ≡ answer self.now.point.n self.now.answers.now (self.now.first + j) }
    {
        evaluated(self.answers, self.first + j, self.point.n)
    }

    // What shifted_stage makes of the j-th answer.
    #[tactic(auto, unfolding(crate::specs::Numbers::numbers))]
    pub fn shifted_stage(&self, stage: Vector, au: Vector, j: usize) -> Vector
        requires { j < 4 }
        ensures { result ≡ axpy self.now.point.n (axpy self.now.point.n (answer self.now.point.n self.now.answers.now (self.now.first + j)) (minus 1)
            (mat_vec self.now.point.n self.now.jacobian.now stage)) (num 1) au }
    {
        let n = self.point.n;
        axpy(
            axpy(self.evaluated(j), -1.0, self.times(stage), n),
            1.0,
            au,
            n,
        )
    }

    // What remainder makes of the j-th answer, between the stage and the state.
    #[tactic(auto, unfolding(crate::specs::Numbers::numbers))]
    pub fn remainder(&self, stage: Vector, j: usize) -> Vector
        requires { j < 4 }
        ensures { result ≡ axpy self.now.point.n (axpy self.now.point.n (answer self.now.point.n self.now.answers.now (self.now.first + j)) (minus 1) self.now.point.f0) (minus 1)
            (mat_vec self.now.point.n self.now.jacobian.now (subtract self.now.point.n stage self.now.point.state)) }
    {
        let n = self.point.n;
        let difference = subtract(stage, self.point.state, n);
        axpy(
            axpy(self.evaluated(j), -1.0, self.point.f0, n),
            -1.0,
            self.times(difference),
            n,
        )
    }
}
