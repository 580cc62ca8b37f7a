// The actions of exponentials of a matrix.
ghost use Rattle.std.specs.Prelude.{◌≡◌, ◌+◌, ◌-◌, ◌*◌, ◌<◌, ◌≤◌, length, replicate};
ghost use Rattle.float.specs.Arith.{◌⊗◌, zero+, one, abs, sum_of};
ghost use Rattle.loops.specs.Loop.{mat, stores};
ghost use Rattle.matrix.specs.Matrix.{at};
ghost use Rattle.matrix.specs.Vector.{vec};
ghost use Rattle.methods.specs.Vectors.{Sized};
ghost use Rattle.methods.specs.Order.{order_number};
ghost use Rattle.blocks.specs.Blocks.{Shifts};
ghost use Rattle.blocks.specs.Storage.{places, split, held, RaisedTo};
ghost use Rattle.methods.specs.Phi.{augmented, augmented_entry, phi_action, phi_term, exp_action};
ghost use Rattle.methods.specs.Parts.{input_row, rows_to, chained, phi_into, admitted_sum, input_admitted, if_wanted, made};

use crate::{Action, Dimension, Order, Tally, Vector, nothing, scaled};
use blocks::{Raised, Shape};
use matrix::vector;

// A matrix of a dimension from 1 to 16, row by row.
#[derive(Clone, Copy)]
pub struct Square<'a> {
    pub n: Dimension,
    pub entries: &'a [f64],
    ghost sized: { Sized n entries.now },
}

// Ones above the diagonal, behind the input column.
// Kept, as are the loops of the two methods of rows below: over an iter_mut with step_by, zip or chunks an invariant cannot name what was written.
fn chain(n: usize, out: &mut [f64], size: usize)
    requires { (n < size) × (size ≤ 20) × (length out.old ≡ size * size) }
    ensures { out.new ≡ chained n size (size - 1 - n) out.old }
{
    for i in n..size - 1 {
        out[i * size + i + 1] = 1.0;
    }
}

// The first n entries of a column.
fn column_of(e: &[f64], size: usize, column: usize, n: Dimension) -> Vector
    requires n_bound { (n ≤ size) × (column < size) × (size ≤ 20) }
    requires e_len { length e.now ≡ size * size }
    ensures { result ≡ vec n (λ i. at e.now size i column) }
{
    vector(n, |i| e[i * size + column])
}

// Kept: scale_a, order and input are the published functions' own parameters; a struct of the three would be made at each of ninety calls of the schemes and be read once.
impl Square<'_> {
    // Row i of scale_a times the matrix, with the input behind it, at the place `to`.
    fn augmented_row(&self, scale_a: f64, input: f64, i: usize, out: &mut [f64], to: usize)
        requires { (i < self.now.n) × (to + self.now.n < length out.old) }
        ensures { out.new ≡ stores (λ j x. input_row self.now.n self.now.entries.now scale_a input i j) to (self.now.n + 1) out.old }
    {
        let n = self.n.get();
        let from = i * n;
        for j in 0..n {
            out[to + j] = scale_a * self.entries[from + j];
        }
        out[to + n] = input;
    }

    // The rows of scale_a times the matrix, with the input column.
    fn augmented_rows(&self, scale_a: f64, input: Vector, out: &mut [f64], size: usize)
        requires n_lt_size { (self.now.n < size) × (size ≤ 20) }
        requires out_value { out.old ≡ rows_to 0 size (augmented_entry self.now.n self.now.entries.now scale_a input) }
        ensures { out.new ≡ rows_to self.now.n size (augmented_entry self.now.n self.now.entries.now scale_a input) }
    {
        for i in 0..self.n.get() {
            self.augmented_row(scale_a, input[i], i, out, i * size);
        }
    }

    // scale_a times the matrix, with the input column, and ones above the diagonal behind it, over +0.0.
    fn augment(&self, scale_a: f64, input: Vector, out: &mut [f64], size: usize)
        requires n_lt_size { (self.now.n < size) × (size ≤ 20) }
        requires out_value { out.old ≡ replicate (size * size) zero+ }
        ensures { out.new ≡ mat size (augmented_entry self.now.n self.now.entries.now scale_a input) }
    {
        self.augmented_rows(scale_a, input, out, size);
        chain(self.n.get(), out, size);
    }

    // A column of the exponential of the augmented matrix of this size, in two matrices that are lent, the first of +0.0.
    fn phi_into(
        &self,
        scale_a: f64,
        input: Vector,
        m: &mut [f64],
        e: &mut [f64],
        size: usize,
        column: usize,
    ) -> Option<Action>
        requires n_lt_size { (self.now.n < size) × (column < size) × (size ≤ 20) }
        requires m_value { m.old ≡ replicate (size * size) zero+ }
        requires e_len { length e.old ≡ size * size }
        ensures { result ≡ made (phi_into self.now.n self.now.entries.now scale_a input size column) }
    {
        self.augment(scale_a, input, m, size);
        let reach = matrix::matrix_exp(m, e, size)?;
        Some(Action {
            v: column_of(e, size, column, self.n),
            tally: Tally::single(reach),
        })
    }

    // The phi action by the exponential of the whole augmented matrix, in room for the largest, since this way is seldom gone.
    // Not inlined, as `raised`: their rooms would stand in one frame, one beside the other.
    #[inline(never)]
    fn phi_plain(&self, scale_a: f64, order: Order, input: Vector) -> Option<Action>
        ensures { result ≡ made (phi_action self.now.n self.now.entries.now scale_a (order_number order) input) }
    {
        let size = self.n.get() + usize::from(order);
        let used = size * size;
        let mut m = [0.0; 400];
        let mut e = [0.0; 400];
        self.phi_into(
            scale_a,
            input,
            &mut m[..used],
            &mut e[..used],
            size,
            size - 1,
        )
    }

    // The rows of scale_a times the matrix, with the input column, as an array of blocks over +0.0, and a one in its lower block.
    fn augment_blocks(&self, scale_a: f64, input: Vector, out: &mut [f64], p: usize)
        requires few { (0 < p) × (p ≤ 4) }
        requires out_value { out.old ≡ replicate (places self.now.n p) zero+ }
        ensures len { length out.new ≡ places self.now.n p }
        ensures whole { held self.now.n p out.new ≡ augmented self.now.n self.now.entries.now scale_a p input }
        ensures shifts { Shifts self.now.n p (split self.now.n p out.new) one }
    {
        let n = self.n.get();
        for i in 0..n {
            self.augmented_row(scale_a, input[i], i, out, i * (n + p));
        }
        if p > 1 {
            out[n * (n + p) + 1] = 1.0;
        }
    }

    // The exponential of the augmented matrix by blocks, in four arrays that are lent, the first of +0.0.
    fn raised_into(
        &self,
        scale_a: f64,
        input: Vector,
        m: &mut [f64],
        sum: &mut [f64],
        even: &mut [f64],
        odd: &mut [f64],
        p: usize,
    ) -> Raised
        requires few { (0 < p) × (p ≤ 4) }
        requires m_value { m.old ≡ replicate (places self.now.n p) zero+ }
        requires len { (length sum.old ≡ places self.now.n p) × (length even.old ≡ places self.now.n p) × (length odd.old ≡ places self.now.n p) }
        ensures { RaisedTo self.now.n p (augmented self.now.n self.now.entries.now scale_a p input) result }
    {
        self.augment_blocks(scale_a, input, m, p);
        let s = Shape { n: self.n.get(), p };
        blocks::raise(m, sum, even, odd, s)
    }

    // The same in room for so many places.
    fn raised_in<const PLACES: usize>(&self, scale_a: f64, input: Vector, p: usize) -> Raised
        requires few { (0 < p) × (p ≤ 4) }
        requires room { (places self.now.n p ≤ PLACES) × (PLACES ≤ 324) }
        ensures { RaisedTo self.now.n p (augmented self.now.n self.now.entries.now scale_a p input) result }
    {
        let n = self.n.get();
        let used = n * (n + p) + p;
        let mut m = [0.0; PLACES];
        let mut sum = [0.0; PLACES];
        let mut even = [0.0; PLACES];
        let mut odd = [0.0; PLACES];
        self.raised_into(
            scale_a,
            input,
            &mut m[..used],
            &mut sum[..used],
            &mut even[..used],
            &mut odd[..used],
            p,
        )
    }

    // The same in the least class of room that holds it.
    #[inline(never)]
    fn raised(&self, scale_a: f64, order: Order, input: Vector) -> Raised
        ensures { RaisedTo self.now.n (order_number order) (augmented self.now.n self.now.entries.now scale_a (order_number order) input) result }
    {
        let p = usize::from(order);
        match self.n.get() {
            1 => self.raised_in::<9>(scale_a, input, p),
            2..=4 => self.raised_in::<36>(scale_a, input, p),
            5..=8 => self.raised_in::<100>(scale_a, input, p),
            9..=12 => self.raised_in::<196>(scale_a, input, p),
            _ => self.raised_in::<324>(scale_a, input, p),
        }
    }

    // The first n entries of the last column of the augmented matrix's exponential; none where it is not admitted. It is worked out by blocks; where
    // a number that they square is not finite, by the whole.
    pub fn phi_action(&self, scale_a: f64, order: Order, input: Vector) -> Option<Action>
        ensures { result ≡ made (phi_action self.now.n self.now.entries.now scale_a (order_number order) input) }
    {
        match self.raised(scale_a, order, input) {
            Raised::Refused => None,
            Raised::Told { reach, column } => Some(Action {
                v: column,
                tally: Tally::single(reach),
            }),
            Raised::Overflowed => self.phi_plain(scale_a, order, input),
        }
    }

    // Whether the sum of row i of scale_a times the matrix, with the input behind it, is admitted.
    fn admitted_row(&self, scale_a: f64, input: f64, i: usize) -> bool
        requires { i < self.now.n }
        ensures { result ≡ admitted_sum (sum_of (self.now.n + 1) (λ j. abs (input_row self.now.n self.now.entries.now scale_a input i j))) }
    {
        let n = self.n.get();
        let row = i * n;
        let first = float::abs(scale_a * self.entries[row]);
        let sum = self.entries[row + 1..row + n]
            .iter()
            .fold(first, |sum, x| sum + float::abs(scale_a * x));
        let sum = sum + float::abs(input);
        float::finite(sum) & (sum <= matrix::LIMIT)
    }

    // Whether the row sums of the augmented matrix are admitted: those of the rows below are 1 and +0.0.
    fn admits(&self, scale_a: f64, input: Vector) -> bool
        ensures { result ≡ input_admitted self.now.n self.now.entries.now scale_a input }
    {
        (0..self.n.get()).all(|i| self.admitted_row(scale_a, input[i], i))
    }

    // The phi action where it is wanted; otherwise, where it is admitted, nothing in its place.
    // Kept: `wanted` is the condition of the call, that an answer past the action is there; an `if` at each of the ten calls would write the action twice.
    pub fn phi_if(&self, wanted: bool, scale_a: f64, order: Order, input: Vector) -> Option<Action>
        ensures { result ≡ made (if_wanted wanted (phi_action self.now.n self.now.entries.now scale_a (order_number order) input)) }
    {
        if wanted {
            return self.phi_action(scale_a, order, input);
        }
        if !self.admits(scale_a, input) {
            return None;
        }
        Some(nothing())
    }

    pub fn phi_term(
        &self,
        scale_a: f64,
        order: Order,
        coefficient: f64,
        input: Vector,
    ) -> Option<Action>
        ensures { result ≡ made (phi_term self.now.n self.now.entries.now scale_a (order_number order) coefficient input) }
    {
        let action = self.phi_action(scale_a, order, input)?;
        Some(scaled(action, coefficient, self.n))
    }

    // The phi term where it is wanted; otherwise, where it is admitted, nothing in its place.
    pub fn phi_term_if(
        &self,
        wanted: bool,
        scale_a: f64,
        order: Order,
        coefficient: f64,
        input: Vector,
    ) -> Option<Action>
        ensures { result ≡ made (if_wanted wanted (phi_term self.now.n self.now.entries.now scale_a (order_number order) coefficient input)) }
    {
        if wanted {
            return self.phi_term(scale_a, order, coefficient, input);
        }
        self.phi_if(false, scale_a, order, input)
    }

    // scale_a times every entry.
    fn scale_into(&self, scale_a: f64, out: &mut [f64])
        requires { length out.old ≡ self.now.n * self.now.n }
        ensures { out.new ≡ mat self.now.n (λ i j. scale_a ⊗ at self.now.entries.now self.now.n i j) }
    {
        for (p, x) in out.iter_mut().enumerate() {
            *x = scale_a * self.entries[p];
        }
    }

    // The action of the exponential, in two matrices that are lent.
    fn exp_into(&self, scale_a: f64, input: Vector, m: &mut [f64], e: &mut [f64]) -> Option<Action>
        requires m_len { length m.old ≡ self.now.n * self.now.n }
        requires e_len { length e.old ≡ self.now.n * self.now.n }
        ensures { result ≡ made (exp_action self.now.n self.now.entries.now scale_a input) }
    {
        let n = self.n.get();
        self.scale_into(scale_a, m);
        let reach = matrix::matrix_exp(m, e, n)?;
        Some(Action {
            v: matrix::mat_vec(e, input, n),
            tally: Tally::single(reach),
        })
    }

    // The same in room for so many entries.
    fn exp_in<const ENTRIES: usize>(&self, scale_a: f64, input: Vector) -> Option<Action>
        requires { (self.now.n * self.now.n ≤ ENTRIES) × (ENTRIES ≤ 256) }
        ensures { result ≡ made (exp_action self.now.n self.now.entries.now scale_a input) }
    {
        let n = self.n.get();
        let used = n * n;
        let mut m = [0.0; ENTRIES];
        let mut e = [0.0; ENTRIES];
        self.exp_into(scale_a, input, &mut m[..used], &mut e[..used])
    }

    // The exponential of scale_a times the matrix, times the input; none where it is not admitted.
    pub fn exp_action(&self, scale_a: f64, input: Vector) -> Option<Action>
        ensures { result ≡ made (exp_action self.now.n self.now.entries.now scale_a input) }
    {
        let n = self.n.get();
        if n <= 4 {
            return self.exp_in::<16>(scale_a, input);
        }
        if n <= 8 {
            return self.exp_in::<64>(scale_a, input);
        }
        self.exp_in::<256>(scale_a, input)
    }
}
