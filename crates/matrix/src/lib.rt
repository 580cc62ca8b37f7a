// matrix.rs: the identity, products, and the exponential by scaling, Taylor's series and squaring.
// A matrix of size n is a slice of n * n entries, row by row.
#![tactic(auto)]

ghost use Rattle.std.specs.Prelude.{◌≡◌, ◌+◌, ◌*◌, ◌≤◌, ◌<◌, true, false, pos, Float, length};
ghost use Rattle.std.specs.Float.{binary64};
ghost use Rattle.std.specs.Float.Ieee.{le, of_int};
ghost use Rattle.loops.specs.Loop.{tab, ◌!◌};
ghost use Rattle.float.specs.Arith.{◌⊕◌, ◌⊗◌, ◌⊘◌, zero+, one, two, limit, abs, sum_of};
ghost use Rattle.matrix.specs.Matrix.{at, identity, mat_mul, squarings, div_all, add_all, max_abs, next_term, small, taylor, squared};
ghost use Rattle.matrix.specs.Vector.{mat_vec};
ghost use Rattle.matrix.specs.Calls.{inverse_power, positive, Normed, outside, above, Mapped, Begun, Added, Turned, Summed, Traded, Calm, Ready, Worked, Filled};

mod dimension;
mod kernel;

pub use dimension::{Dimension, vector};
pub use kernel::{Rows, product};

// 2 ^ 31, the largest row sum that is exponentiated.
pub const LIMIT: f64 = 2147483648.0;

// ---- the identity and the products

// The identity of size n.
// Kept: over an iter_mut with step_by, zip or chunks an invariant cannot name what was written.
pub fn identity(out: &mut [f64], n: usize)
    requires { (n ≤ 20) × (length out.old ≡ n * n) }
    ensures { out.new ≡ identity n }
{
    out.fill(0.0);
    for i in 0..n {
        out[kernel::span(i, i, 1, n, n)] = 1.0;
    }
}

// left times right, n rows of n places, whose sums all stay in registers.
fn small_product<const N: usize>(left: &[f64], right: &[f64], out: &mut [f64])
    requires small { N ≤ 20 }
    requires len { (length left.now ≡ N * N) × (length right.now ≡ N * N) × (length out.old ≡ N * N) }
    ensures { out.new ≡ mat_mul left.now right.now N }
{
    let left = Rows {
        entries: left,
        rows: N,
        width: N,
    };
    let right = Rows {
        entries: right,
        rows: N,
        width: N,
    };
    kernel::put::<N, N>(&left, &right, 0, out, N);
}

// The same of any size.
fn large_product(left: &[f64], right: &[f64], out: &mut [f64], n: usize)
    requires small { n ≤ 20 }
    requires len { (length left.now ≡ n * n) × (length right.now ≡ n * n) × (length out.old ≡ n * n) }
    ensures { out.new ≡ mat_mul left.now right.now n }
{
    let left = Rows {
        entries: left,
        rows: n,
        width: n,
    };
    let right = Rows {
        entries: right,
        rows: n,
        width: n,
    };
    product(&left, &right, n, out, n);
}

// out = left * right, each entry summed from +0.0.
pub fn mat_mul(left: &[f64], right: &[f64], out: &mut [f64], n: usize)
    requires n_bound { n ≤ 20 }
    requires left_len { (length left.now ≡ n * n) × (length right.now ≡ n * n) × (length out.old ≡ n * n) }
    ensures { out.new ≡ mat_mul left.now right.now n }
{
    match n {
        1 => small_product::<1>(left, right, out),
        2 => small_product::<2>(left, right, out),
        3 => small_product::<3>(left, right, out),
        4 => small_product::<4>(left, right, out),
        _ => large_product(left, right, out, n),
    }
}

// A row times a vector, from its first product.
fn row_dot(row: &[f64], v: &[f64]) -> f64
    requires { (0 < length row.now) × (length row.now ≤ length v.now) }
    ensures { result ≡ sum_of (length row.now) (λ j. row.now ! j ⊗ v.now ! j) }
{
    let mut sum = row[0] * v[0];
    for (x, y) in row[1..].iter().zip(&v[1..]) {
        sum += x * y;
    }
    sum
}

// A matrix times a vector of n entries; the places past n are +0.0. Not inlined: a step's frame, which is the deepest, would grow.
// Kept: by `vector` it takes a twentieth more instructions.
#[inline(never)]
pub fn mat_vec(m: &[f64], v: [f64; 16], n: usize) -> [f64; 16]
    requires { (n ≤ 16) × (length m.now ≡ n * n) }
    ensures { result ≡ mat_vec n m.now v }
{
    let m = Rows {
        entries: m,
        rows: n,
        width: n,
    };
    let mut out = [0.0; 16];
    for i in 0..n {
        out[i] = row_dot(m.row(i), &v);
    }
    out
}

// ---- step 1: the norm

// The absolute values of a row, summed from the first.
fn row_sum(row: &[f64]) -> f64
    requires { 0 < length row.now }
    ensures { result ≡ sum_of (length row.now) (λ j. abs (row.now ! j)) }
{
    row.iter()
        .skip(1)
        .fold(float::abs(row[0]), |sum, x| sum + float::abs(*x))
}

impl Rows<'_> {
    // The largest row sum; None where a row sum is not finite or is above 2^31.
    // Kept: a try_fold would have the same lines in a closure, and an Option around the larger of two.
    pub fn norm(&self) -> Option<f64>
        requires { self.now.rows ≤ self.now.width }
        ensures { Normed self.now.rows self.now.entries.now self.now.width result }
    {
        let mut norm = 0.0;
        for i in 0..self.rows {
            let sum = row_sum(self.row(i));
            if !(float::finite(sum) & (sum <= LIMIT)) {
                return None;
            }
            norm = float::larger(norm, sum);
        }
        Some(norm)
    }
}

// ---- step 2: how often to square

// A number of squarings, and the inverse of 2 to that power, by which the matrix is multiplied.
#[derive(Clone, Copy)]
pub struct Scale {
    pub count: u32,
    pub factor: f64,
    ghost inverse: { factor ≡ inverse_power count },
}

impl Scale {
    // The least count with 2^count >= 2 * norm.
    // Kept: the count is that of the doublings, and to read it from the norm's bits would be no plainer.
    pub fn of(norm: f64) -> Scale
        requires { le norm limit ≡ true }
        ensures { result.count ≡ squarings norm }
    {
        let mut count = 0;
        let mut half = 0.5;
        let mut factor = 1.0;
        while half < norm {
            half *= 2.0;
            factor *= 0.5;
            count += 1;
        }
        Scale { count, factor }
    }
}

// ---- steps 3 and 4: the series

// Twice float::EPSILON. A term with an entry above it is not the last, since no entry of the sum is above 2.
const LARGE: f64 = 4.440892098500626e-16;

// Multiplies every entry: by the inverse of a power of two, which divides by that power.
#[inline(always)]
pub fn times_all(m: &mut [f64], factor: f64)
    ensures { m.new ≡ tab (length m.old) (λ p. m.old ! p ⊗ factor) }
{
    for x in m.iter_mut() {
        *x *= factor;
    }
}

// Makes each entry of the term anew by a rule, and adds it to the sum.
// Kept: an invariant cannot name what a zip of both writes.
#[inline(always)]
fn add_by<F: Fn(f64) -> f64>(term: &mut [f64], sum: &mut [f64], rule: F)
    requires places { length sum.old ≡ length term.old }
    requires rule { (x : Float) → F.pre rule x }
    ensures { (f : Float → Float) → ((x y : Float) → F.post rule x y → y ≡ f x) → Mapped term.old sum.old f term.new sum.new }
{
    for p in 0..term.len() {
        let t = rule(term[p]);
        term[p] = t;
        sum[p] += t;
    }
}

// Whether x is above a bound or below its negative.
// Kept: float::abs compares and chooses three times, and this is asked of every term.
fn outside(x: f64, bound: f64) -> bool
    ensures { result ≡ outside bound x }
{
    (bound < x) | (x < -bound)
}

// Whether some entry is above a bound or below its negative.
fn above(m: &[f64], bound: f64) -> bool
    ensures { result ≡ above bound m.now }
{
    for x in m {
        if outside(*x, bound) {
            return true;
        }
    }
    false
}

// The larger of 1 and the largest magnitude.
fn largest(m: &[f64]) -> f64
    ensures { result ≡ max_abs one m.now }
{
    let mut big = 1.0;
    for x in m {
        big = float::larger(big, float::abs(*x));
    }
    big
}

// Whether the series stops with this term, which the sum holds already. The sum's largest magnitude is between 1 and 2, so it is looked for only
// where the term's first entry above epsilon is at most twice that.
#[inline(always)]
fn is_last(term: &[f64], sum: &[f64]) -> bool
    requires { le (max_abs one sum.now) two ≡ true }
    ensures { result ≡ small term.now sum.now }
{
    for x in term {
        if outside(*x, float::EPSILON) {
            if outside(*x, LARGE) {
                return false;
            }
            return !above(term, float::EPSILON * largest(sum));
        }
    }
    true
}

// Divides the term by k and adds it to the sum.
#[inline(always)]
fn divide_add(term: &mut [f64], sum: &mut [f64], k: u32)
    requires { length sum.old ≡ length term.old }
    ensures { Mapped term.old sum.old (λ x. x ⊘ of_int binary64 (pos k)) term.new sum.new }
{
    match k {
        2 => add_by(term, sum, |x| x * 0.5),
        4 => add_by(term, sum, |x| x * 0.25),
        8 => add_by(term, sum, |x| x * 0.125),
        _ => {
            let divisor = k as f64;
            add_by(term, sum, |x| x / divisor)
        }
    }
}

// Divides the term by k and adds it to the sum; whether it is small enough to be the last.
// Kept: the answer, here and of `turn`, is what the series' `if` asks: a ControlFlow would be asked by is_break.
#[inline(always)]
pub fn add_term(term: &mut [f64], sum: &mut [f64], k: u32) -> bool
    requires places { length sum.old ≡ length term.old }
    requires low { le (max_abs one (add_all sum.old (div_all term.old (of_int binary64 (pos k))))) two ≡ true }
    ensures { Added term.old sum.old (of_int binary64 (pos k)) term.new sum.new result }
{
    divide_add(term, sum, k);
    is_last(term, sum)
}

// The k-th term from the last one, into next, and added to the sum; whether the series stops with it.
// Inlined: called, the series of a matrix of size 1 or 2 takes a tenth more instructions.
#[inline(always)]
fn turn(a: &[f64], sum: &mut [f64], last: &[f64], next: &mut [f64], k: u32, n: usize) -> bool
    requires n_bound { n ≤ 20 }
    requires a_len { (length a.now ≡ n * n) × (length sum.old ≡ n * n) × (length last.now ≡ n * n) × (length next.old ≡ n * n) }
    requires low { le (max_abs one (add_all sum.old (next_term last.now a.now n k))) two ≡ true }
    ensures { Turned a.now sum.old last.now k n next.new sum.new result }
{
    mat_mul(last, a, next, n);
    add_term(next, sum, k)
}

// All of a into x.
// Kept: the library's copy asks the C library for memmove, which nothing else here needs.
#[inline(always)]
fn copy_all(a: &[f64], x: &mut [f64])
    requires { length x.old ≡ length a.now }
    ensures { x.new ≡ a.now }
{
    for (p, y) in a.iter().enumerate() {
        x[p] = *y;
    }
}

// The first term, into term: the matrix itself, where -0.0 becomes +0.0. It is added to the sum; whether it is small enough to be the last.
#[inline(always)]
pub fn add_first(a: &[f64], sum: &mut [f64], term: &mut [f64]) -> bool
    requires places { (length sum.old ≡ length a.now) × (length term.old ≡ length a.now) }
    requires low { le (max_abs one (add_all sum.old (positive a.now))) two ≡ true }
    ensures { Begun a.now sum.old term.new sum.new result }
{
    copy_all(a, term);
    add_by(term, sum, |x| 0.0 + x);
    is_last(term, sum)
}

// The first term and the identity, into sum; whether the series stops there.
fn first_term(a: &[f64], sum: &mut [f64], term: &mut [f64], n: usize) -> bool
    requires n_bound { n ≤ 20 }
    requires a_len { (length a.now ≡ n * n) × (length sum.old ≡ n * n) × (length term.old ≡ n * n) }
    requires calm { Calm a.now n }
    ensures { Turned a.now (identity n) (identity n) 1 n term.new sum.new result }
{
    identity(sum, n);
    add_first(a, sum, term)
}

// The series of the exponential, into sum, and the number of its last term.
// Kept: the three others are written, so n goes with them; where they are handed in as a struct the compiler loses n's bound, and products take a tenth more instructions.
fn taylor(a: &[f64], sum: &mut [f64], even: &mut [f64], odd: &mut [f64], n: usize) -> u32
    requires n_bound { n ≤ 20 }
    requires a_len { (length a.now ≡ n * n) × (length sum.old ≡ n * n) × (length even.old ≡ n * n) × (length odd.old ≡ n * n) }
    requires calm { Calm a.now n }
    ensures { Summed a.now n sum.new result }
{
    if first_term(a, sum, odd, n) {
        return 1;
    }
    let mut k: u32 = 2;
    // Kept: a rule of the project has the loop yield the term's number by its break; two terms a turn need no third array.
    loop {
        if turn(a, sum, odd, even, k, n) {
            break k;
        }
        if turn(a, sum, even, odd, k + 1, n) {
            break k + 1;
        }
        k += 2;
    }
}

// ---- step 5: the squarings

// The matrix in first, squared count times. Each round squares from one array into the other, and they trade their parts: the result stands
// in first if count is even, otherwise in second.
// Kept: the round's number says whose turn it is; of two references that are exchanged in a loop the proof no longer knows which array is which.
pub fn square_rounds(first: &mut [f64], second: &mut [f64], count: u32, n: usize)
    requires n_bound { n ≤ 20 }
    requires first_len { (length first.old ≡ n * n) × (length second.old ≡ n * n) }
    ensures traded { Traded count first.old n first.new second.new }
    ensures none { count ≡ 0 → second.new ≡ second.old }
{
    for round in 0..count {
        if round % 2 == 0 {
            mat_mul(first, first, second, n);
        } else {
            mat_mul(second, second, first, n);
        }
    }
}

// ---- the five together

// The series of a divided matrix, built in first and squared count times; the number of its terms.
fn taylor_squared(
    a: &[f64],
    first: &mut [f64],
    even: &mut [f64],
    second: &mut [f64],
    count: u32,
    n: usize,
) -> u32
    requires n_bound { n ≤ 20 }
    requires a_len { (length a.now ≡ n * n) × (length first.old ≡ n * n) × (length even.old ≡ n * n) × (length second.old ≡ n * n) }
    requires calm { Calm a.now n }
    ensures number { result ≡ (taylor a.now n).terms }
    ensures traded { Traded count (taylor a.now n).sum n first.new second.new }
{
    let terms = taylor(a, first, even, second, n);
    square_rounds(first, second, count, n);
    terms
}

// The exponential over lent room, and the number of its terms. The sum is built in that array from which the squarings end in out.
// Kept: what the three hand on is no struct: its ghost field would be Ready, which no longer holds once m is divided.
fn exp_into(
    m: &mut [f64],
    out: &mut [f64],
    even: &mut [f64],
    odd: &mut [f64],
    scale: Scale,
    n: usize,
) -> u32
    requires ready { Ready m.old out.old n scale.count }
    requires even_len { (length even.old ≡ n * n) × (length odd.old ≡ n * n) }
    ensures { Worked m.old n scale.count m.new out.new result }
{
    times_all(m, scale.factor);
    if scale.count % 2 == 0 {
        taylor_squared(m, out, even, odd, scale.count, n)
    } else {
        taylor_squared(m, odd, even, out, scale.count, n)
    }
}

// Room for matrices of up to ROOM entries.
fn exp_in<const ROOM: usize>(m: &mut [f64], out: &mut [f64], scale: Scale, n: usize) -> u32
    requires room { (n * n ≤ ROOM) × (ROOM ≤ 400) }
    requires ready { Ready m.old out.old n scale.count }
    ensures { Worked m.old n scale.count m.new out.new result }
{
    let size = n * n;
    let mut even = [0.0; ROOM];
    let mut odd = [0.0; ROOM];
    exp_into(m, out, &mut even[..size], &mut odd[..size], scale, n)
}

// The exponential in the least class of room that holds it, and the number of its terms.
fn exp_roomy(m: &mut [f64], out: &mut [f64], scale: Scale, n: usize) -> u32
    requires { Ready m.old out.old n scale.count }
    ensures { Worked m.old n scale.count m.new out.new result }
{
    match n {
        0..=4 => exp_in::<16>(m, out, scale, n),
        5..=8 => exp_in::<64>(m, out, scale, n),
        9..=12 => exp_in::<144>(m, out, scale, n),
        _ => exp_in::<400>(m, out, scale, n),
    }
}

// How far an exponential went: the terms that were added to its series, and the squarings.
#[derive(Clone, Copy)]
pub struct Reach {
    pub terms: u32,
    pub squarings: u32,
}

// The exponential of m, into out, and how far it went; or none, with out as it was, where a row sum is
// not finite or is above 2^31. m itself is divided; where it is refused, it is as it was.
pub fn matrix_exp(m: &mut [f64], out: &mut [f64], n: usize) -> Option<Reach>
    requires n_bound { n ≤ 20 }
    requires m_len { (length m.old ≡ n * n) × (length out.old ≡ n * n) }
    ensures { Filled m.old n m.new out.old out.new result }
{
    let a = Rows {
        entries: m,
        rows: n,
        width: n,
    };
    let Some(norm) = a.norm() else {
        return None;
    };
    let scale = Scale::of(norm);
    let terms = exp_roomy(m, out, scale, n);
    Some(Reach {
        terms,
        squarings: scale.count,
    })
}
