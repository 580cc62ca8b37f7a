// The last column of the exponential of an augmented matrix, by blocks: its first n rows are worked out, the block below left is zero, and the
// block below right has one number to a diagonal. While every number is finite, products with these zeros change no bit.
#![tactic(auto)]

ghost use Rattle.std.specs.Prelude.{◌≡◌, ◌+◌, ◌-◌, ◌*◌, ◌≤◌, ◌<◌, suc, true, false, cond, eqb, ◌++◌, length, take, drop, replicate, MatchOption};
ghost use Rattle.std.specs.Float.Ieee.{le};
ghost use Rattle.loops.specs.Loop.{iter, tab, fill, ◌!◌};
ghost use Rattle.float.specs.Arith.{◌⊕◌, ◌⊗◌, zero+, one, two};
ghost use Rattle.matrix.specs.Matrix.{at, identity, norm, admitted, squarings, add_all, max_abs, next_term, mat_mul, squared};
ghost use Rattle.matrix.specs.Claims.{Admitted};
ghost use Rattle.matrix.specs.Vector.{vec};
ghost use Rattle.matrix.specs.Products.{entry, framed};
ghost use Rattle.matrix.specs.Calls.{Trades, Turned, Summed};
ghost use Rattle.blocks.specs.Blocks.{along, block_identity, Shifts};
ghost use Rattle.blocks.specs.Storage.{places, split, joined, held, all_finite, times, told, Shifting, Tame, Grown, RaisedTo};

use matrix::{Reach, Rows, Scale};

// The shape of an augmented matrix: n rows above and p below. An array of it has the first n rows, n + p places each, and behind them the p
// numbers of the lower block.
#[derive(Clone, Copy)]
pub struct Shape {
    pub n: usize,
    pub p: usize,
    ghost some: { (0 < n) × (n ≤ 16) },
    ghost few: { (0 < p) × (p ≤ 4) },
}

impl Shape {
    // The places of a row.
    fn width(self) -> usize
        ensures { result ≡ self.n + self.p }
    {
        self.n + self.p
    }

    // Where the numbers of the lower block begin.
    fn lower(self) -> usize
        ensures { result ≡ self.n * (self.n + self.p) }
    {
        self.n * self.width()
    }

    // Where the last p places of row i begin.
    fn tail(self, i: usize) -> usize
        requires { i < self.n }
        ensures { (result ≡ i * (self.n + self.p) + self.n) × (result + self.p ≤ self.n * (self.n + self.p)) }
    {
        i * self.width() + self.n
    }
}

// ---- products

// A sum, and then the products of the first d + 1 numbers of a row with those of a lower block, from its d-th back.
#[inline(always)]
fn dot_along(sum: f64, row: &[f64], lower: &[f64], d: usize) -> f64
    requires { (d < length row.now) × (length lower.now ≡ length row.now) }
    ensures { result ≡ iter (suc d) (λ k z. z ⊕ row.now ! k ⊗ lower.now ! (d - k)) sum }
{
    let mut sum = sum;
    for k in 0..d + 1 {
        sum += row[k] * lower[d - k];
    }
    sum
}

// Adds the products of a row's last p numbers with a lower block.
#[inline(always)]
fn add_along(row: &[f64], lower: &[f64], out: &mut [f64])
    requires { (length row.now ≡ length out.old) × (length lower.now ≡ length out.old) × (length out.old ≤ 4) }
    ensures { out.new ≡ tab (length out.old) (λ d. iter (suc d) (λ k z. z ⊕ row.now ! k ⊗ lower.now ! (d - k)) (out.old ! d)) }
{
    for (d, x) in out.iter_mut().enumerate() {
        *x = dot_along(*x, row, lower, d);
    }
}

// The first n rows of a product: those of x times the first n rows of y, in the first columns.
#[inline(always)]
fn upper_product(x: &[f64], y: &[f64], columns: usize, out: &mut [f64], s: Shape)
    requires len { (length x.now ≡ places s.n s.p) × (length y.now ≡ places s.n s.p) × (length out.old ≡ places s.n s.p) }
    requires columns { columns ≤ s.n + s.p }
    ensures { out.new ≡ framed s.n (s.n + s.p) 0 s.n 0 columns (entry s.n x.now (s.n + s.p) y.now (s.n + s.p)) (take (s.n * (s.n + s.p)) out.old) ++ drop (s.n * (s.n + s.p)) out.old }
{
    let all = s.lower();
    let left = Rows {
        entries: &x[..all],
        rows: s.n,
        width: s.width(),
    };
    let right = Rows {
        entries: &y[..all],
        rows: s.n,
        width: s.width(),
    };
    matrix::product(&left, &right, columns, &mut out[..all], s.width());
}

// A lower block times itself.
#[inline(always)]
fn square_lower(lower: &[f64], out: &mut [f64])
    requires { (length lower.now ≡ length out.old) × (length out.old ≤ 4) }
    ensures { out.new ≡ tab (length out.old) (along lower.now lower.now) }
{
    out.fill(0.0);
    add_along(lower, lower, out);
}

// x times itself.
#[inline(always)]
fn square(x: &[f64], out: &mut [f64], s: Shape)
    requires { (length x.now ≡ places s.n s.p) × (length out.old ≡ places s.n s.p) }
    ensures { out.new ≡ times s.n s.p x.now x.now }
{
    let all = s.lower();
    upper_product(x, x, s.width(), out, s);
    for i in 0..s.n {
        let from = s.tail(i);
        add_along(&x[from..from + s.p], &x[all..], &mut out[from..from + s.p]);
    }
    square_lower(&x[all..], &mut out[all..]);
}

// Behind the first of p numbers, those of a row times nu, one place on.
#[inline(always)]
fn shift_row(row: &[f64], out: &mut [f64], nu: f64)
    requires { length row.now ≡ length out.old }
    ensures { out.new ≡ tab (length out.old) (λ d. cond (eqb d 0) (out.old ! 0) (zero+ ⊕ row.now ! (d - 1) ⊗ nu)) }
{
    for d in 1..out.len() {
        out[d] = 0.0 + row[d - 1] * nu;
    }
}

// A term times the matrix a: what stands behind the input column is a shift.
#[inline(always)]
fn multiply(last: &[f64], a: &[f64], next: &mut [f64], s: Shape)
    requires len { (length last.now ≡ places s.n s.p) × (length a.now ≡ places s.n s.p) × (length next.old ≡ places s.n s.p) }
    requires shifting { Shifting s.n s.p a.now }
    requires finite { all_finite last.now ≡ true }
    ensures { next.new ≡ times s.n s.p last.now a.now }
{
    let all = s.lower();
    upper_product(last, a, s.n + 1, next, s);
    next[all] = 0.0;
    if s.p > 1 {
        let nu = a[all + 1];
        for i in 0..s.n {
            let from = s.tail(i);
            shift_row(&last[from..from + s.p], &mut next[from..from + s.p], nu);
        }
        shift_row(&last[all..], &mut next[all..], nu);
    }
}

// ---- the series

// The identity.
#[inline(always)]
fn identity(out: &mut [f64], s: Shape)
    requires { length out.old ≡ places s.n s.p }
    ensures { out.new ≡ joined (block_identity s.n s.p) }
{
    out.fill(0.0);
    for i in 0..s.n {
        out[s.tail(i) - s.n + i] = 1.0;
    }
    out[s.lower()] = 1.0;
}

// The first term, and the identity and it; whether the series stops there.
#[inline(always)]
fn first_term(a: &[f64], sum: &mut [f64], term: &mut [f64], s: Shape) -> bool
    requires len { (length a.now ≡ places s.n s.p) × (length sum.old ≡ places s.n s.p) × (length term.old ≡ places s.n s.p) }
    requires tame { Tame s.n s.p a.now }
    ensures len { (length sum.new ≡ places s.n s.p) × (length term.new ≡ places s.n s.p) }
    ensures turned { Turned (held s.n s.p a.now) (identity (s.n + s.p)) (identity (s.n + s.p)) 1 (s.n + s.p) (held s.n s.p term.new) (held s.n s.p sum.new) result }
{
    identity(sum, s);
    matrix::add_first(a, sum, term)
}

// The k-th term from the last one, into next, and added to the sum; whether the series stops with it.
#[inline(always)]
fn turn(a: &[f64], sum: &mut [f64], last: &[f64], next: &mut [f64], k: u32, s: Shape) -> bool
    requires len { (length a.now ≡ places s.n s.p) × (length sum.old ≡ places s.n s.p) × (length last.now ≡ places s.n s.p) × (length next.old ≡ places s.n s.p) }
    requires shifting { Shifting s.n s.p a.now }
    requires finite { (all_finite last.now ≡ true) × (all_finite a.now ≡ true) }
    requires some { 1 ≤ k }
    requires low { le (max_abs one (add_all (held s.n s.p sum.old) (next_term (held s.n s.p last.now) (held s.n s.p a.now) (s.n + s.p) k))) two ≡ true }
    ensures len { (length sum.new ≡ places s.n s.p) × (length next.new ≡ places s.n s.p) }
    ensures turned { Turned (held s.n s.p a.now) (held s.n s.p sum.old) (held s.n s.p last.now) k (s.n + s.p) (held s.n s.p next.new) (held s.n s.p sum.new) result }
{
    multiply(last, a, next, s);
    matrix::add_term(next, sum, k)
}

// The series of the whole matrix, into sum, and the number of its last term.
// The loop is that of matrix, over the product by blocks; so is that of square_rounds.
#[inline(always)]
fn taylor(a: &[f64], sum: &mut [f64], even: &mut [f64], odd: &mut [f64], s: Shape) -> u32
    requires len { (length a.now ≡ places s.n s.p) × (length sum.old ≡ places s.n s.p) × (length even.old ≡ places s.n s.p) × (length odd.old ≡ places s.n s.p) }
    requires tame { Tame s.n s.p a.now }
    ensures len { (length sum.new ≡ places s.n s.p) × (length even.new ≡ places s.n s.p) × (length odd.new ≡ places s.n s.p) }
    ensures summed { Summed (held s.n s.p a.now) (s.n + s.p) (held s.n s.p sum.new) result }
{
    if first_term(a, sum, odd, s) {
        return 1;
    }
    let mut k: u32 = 2;
    loop {
        if turn(a, sum, odd, even, k, s) {
            break k;
        }
        if turn(a, sum, even, odd, k + 1, s) {
            break k + 1;
        }
        k += 2;
    }
}

// ---- the squarings

// What is in first, squared count times. Each round squares from one array into the other, and they trade their parts: the result stands in first
// if count is even, otherwise in second.
#[inline(always)]
fn square_rounds(first: &mut [f64], second: &mut [f64], count: u32, s: Shape)
    requires len { (length first.old ≡ places s.n s.p) × (length second.old ≡ places s.n s.p) }
    ensures len { (length first.new ≡ places s.n s.p) × (length second.new ≡ places s.n s.p) }
    ensures traded { Trades (λ x. times s.n s.p x x) count first.old first.new second.new }
{
    for round in 0..count {
        if round % 2 == 0 {
            square(first, second, s);
        } else {
            square(second, first, s);
        }
    }
}

// ---- the last column

// The last column of the whole: that of the first n rows, and the lower block's.
#[inline(always)]
fn last_column(x: &[f64], s: Shape) -> [f64; 20]
    requires { length x.now ≡ places s.n s.p }
    ensures { result ≡ fill (s.n + s.p) (λ i. at (held s.n s.p x.now) (s.n + s.p) i (s.n + s.p - 1)) (replicate 20 zero+) }
{
    let mut column = [0.0; 20];
    for i in 0..s.n {
        column[i] = x[s.tail(i) + s.p - 1];
    }
    for d in 0..s.p {
        column[s.n + d] = x[s.lower() + (s.p - 1 - d)];
    }
    column
}

// Its first n numbers.
#[inline(always)]
fn column(x: &[f64], s: Shape) -> [f64; 16]
    requires { length x.now ≡ places s.n s.p }
    ensures { result ≡ vec s.n (λ i. at (held s.n s.p x.now) (s.n + s.p) i (s.n + s.p - 1)) }
{
    let mut out = [0.0; 16];
    for i in 0..s.n {
        out[i] = x[s.tail(i) + s.p - 1];
    }
    out
}

// Those of the square of what is in x.
#[inline(always)]
fn squared_column(x: &[f64], s: Shape) -> [f64; 16]
    requires { length x.now ≡ places s.n s.p }
    ensures { result ≡ vec s.n (λ i. at (mat_mul (held s.n s.p x.now) (held s.n s.p x.now) (s.n + s.p)) (s.n + s.p) i (s.n + s.p - 1)) }
{
    let last = last_column(x, s);
    let right = Rows {
        entries: &last[..s.width()],
        rows: s.width(),
        width: 1,
    };
    let left = Rows {
        entries: &x[..s.lower()],
        rows: s.n,
        width: s.width(),
    };
    let mut out = [0.0; 16];
    matrix::product(&left, &right, 1, &mut out[..s.n], 1);
    out
}

// ---- the five together

// What becomes of the exponential of a whole matrix: a row sum is not finite or is above 2^31; or a number that is squared last is not finite, and
// no more is told; or how far it went, and the first n entries of its last column.
pub enum Raised {
    Refused,
    Overflowed,
    Told { reach: Reach, column: [f64; 16] },
}

// Whether every number is finite.
#[inline(always)]
fn finite(x: &[f64]) -> bool
    ensures { result ≡ all_finite x.now }
{
    x.iter().all(|y| float::finite(*y))
}

// The last column after the squarings of a series' sum, where the numbers that are squared last are finite.
#[inline(always)]
fn squared(sum: &mut [f64], second: &mut [f64], count: u32, s: Shape) -> Option<[f64; 16]>
    requires len { (length sum.old ≡ places s.n s.p) × (length second.old ≡ places s.n s.p) }
    ensures { MatchOption result (Grown s.n s.p count sum.old) (λ v. v ≡ vec s.n (λ i. at (squared count (held s.n s.p sum.old) (s.n + s.p)) (s.n + s.p) i (s.n + s.p - 1))) }
{
    if count == 0 {
        return Some(column(sum, s));
    }
    square_rounds(sum, second, count - 1, s);
    let x = if count % 2 == 1 { &*sum } else { &*second };
    if !finite(x) {
        return None;
    }
    Some(squared_column(x, s))
}

// How often the exponential of the whole matrix is squared, from its norm; None where a row sum is not finite or is above 2^31.
#[inline(always)]
fn scale_of(m: &[f64], s: Shape) -> Option<Scale>
    requires len { length m.now ≡ places s.n s.p }
    requires augmented { Shifts s.n s.p (split s.n s.p m.now) one }
    ensures { MatchOption result (admitted (held s.n s.p m.now) (s.n + s.p) ≡ false) (λ x. Admitted (held s.n s.p m.now) (s.n + s.p) × (x.count ≡ squarings (norm (held s.n s.p m.now) (s.n + s.p)))) }
{
    let upper = Rows {
        entries: &m[..s.lower()],
        rows: s.n,
        width: s.width(),
    };
    let norm = upper.norm()?;
    let below = if s.p > 1 { 1.0 } else { 0.0 };
    Some(Scale::of(float::larger(norm, below)))
}

// What is told of a column, and of how far the exponential went.
#[tactic(auto, unfolding(crate::specs::Storage::told))]
#[inline(always)]
fn told(column: Option<[f64; 16]>, terms: u32, squarings: u32) -> Raised
    ensures { result ≡ told column terms squarings }
{
    let Some(column) = column else {
        return Raised::Overflowed;
    };
    Raised::Told {
        reach: Reach { terms, squarings },
        column,
    }
}

// The exponential of the whole matrix in m, which has one row above: its shape is known when this is compiled.
// Kept: the same steps as those of raise_rows; a function of them that both call is too large to be inlined, and then no shape is known in it.
fn raise_line<const P: usize>(
    m: &mut [f64],
    sum: &mut [f64],
    even: &mut [f64],
    odd: &mut [f64],
) -> Raised
    requires few { (0 < P) × (P ≤ 4) }
    requires len { (length m.old ≡ places 1 P) × (length sum.old ≡ places 1 P) × (length even.old ≡ places 1 P) × (length odd.old ≡ places 1 P) }
    requires augmented { Shifts 1 P (split 1 P m.old) one }
    ensures { RaisedTo 1 P (held 1 P m.old) result }
{
    let s = Shape { n: 1, p: P };
    let Some(scale) = scale_of(m, s) else {
        return Raised::Refused;
    };
    matrix::times_all(m, scale.factor);
    let terms = taylor(m, sum, even, odd, s);
    told(squared(sum, odd, scale.count, s), terms, scale.count)
}

// The same with the lengths of the arrays known, too, so that loops over them are unrolled.
fn raise_known<const P: usize>(
    m: &mut [f64],
    sum: &mut [f64],
    even: &mut [f64],
    odd: &mut [f64],
) -> Raised
    requires few { (0 < P) × (P ≤ 4) }
    requires len { (length m.old ≡ places 1 P) × (length sum.old ≡ places 1 P) × (length even.old ≡ places 1 P) × (length odd.old ≡ places 1 P) }
    requires augmented { Shifts 1 P (split 1 P m.old) one }
    ensures { RaisedTo 1 P (held 1 P m.old) result }
{
    let all = 2 * P + 1;
    raise_line::<P>(
        &mut m[..all],
        &mut sum[..all],
        &mut even[..all],
        &mut odd[..all],
    )
}

// The same in any shape.
fn raise_rows(m: &mut [f64], sum: &mut [f64], even: &mut [f64], odd: &mut [f64], s: Shape) -> Raised
    requires len { (length m.old ≡ places s.n s.p) × (length sum.old ≡ places s.n s.p) × (length even.old ≡ places s.n s.p) × (length odd.old ≡ places s.n s.p) }
    requires augmented { Shifts s.n s.p (split s.n s.p m.old) one }
    ensures { RaisedTo s.n s.p (held s.n s.p m.old) result }
{
    let Some(scale) = scale_of(m, s) else {
        return Raised::Refused;
    };
    matrix::times_all(m, scale.factor);
    let terms = taylor(m, sum, even, odd, s);
    told(squared(sum, odd, scale.count, s), terms, scale.count)
}

// The exponential of the whole matrix in m, whose lower block has 1.0 right of its diagonal: the first n entries of its last column. m is divided, unless it is refused.
pub fn raise(m: &mut [f64], sum: &mut [f64], even: &mut [f64], odd: &mut [f64], s: Shape) -> Raised
    requires len { (length m.old ≡ places s.n s.p) × (length sum.old ≡ places s.n s.p) × (length even.old ≡ places s.n s.p) × (length odd.old ≡ places s.n s.p) }
    requires augmented { Shifts s.n s.p (split s.n s.p m.old) one }
    ensures { RaisedTo s.n s.p (held s.n s.p m.old) result }
{
    match (s.n, s.p) {
        (1, 1) => raise_known::<1>(m, sum, even, odd),
        (1, 2) => raise_known::<2>(m, sum, even, odd),
        (1, 3) => raise_known::<3>(m, sum, even, odd),
        (1, 4) => raise_known::<4>(m, sum, even, odd),
        _ => raise_rows(m, sum, even, odd, s),
    }
}
