// Places of an array: which are in use, whether those are finite, and copies.
ghost use Rattle.std.specs.Prelude.{◌≡◌, true, ◌&&◌, ◌≤◌, eqb, length};
ghost use Rattle.std.specs.List.{list_all};
ghost use Rattle.loops.specs.Loop.{tab, ◌!◌};
ghost use Rattle.float.specs.Arith.{plus_zero};
ghost use Rattle.evaluation.specs.Evaluation.{all_finite};
ghost use Rattle.evaluation.specs.Sizes.{places};
ghost use Rattle.matrix.specs.Vector.{vec};
ghost use Rattle.session.specs.Session.{clear, clear_answers};

use evaluation::{ANSWERS, PLACES, ROOM};
use matrix::Dimension;
use std::num::f64_to_bits_with_nan;

// `bits`, and a bit more unless each of eight places is +0.0. If each is, so is their sum; no sum with a NaN is 0, so no NaN's bits are read.
// Kept: a slice of eight, whose type tells that each place is a double; that of a reference to an array does not.
fn with_eight(bits: u64, x: &[f64]) -> u64
    requires { length x.now ≡ 8 }
    ensures { eqb result 0 ≡ (eqb bits 0 && list_all plus_zero x.now) }
{
    let [a, b, c, d] = [x[0], x[1], x[2], x[3]];
    let [e, f, g, h] = [x[4], x[5], x[6], x[7]];
    let sum = ((a + c) + (e + g)) + ((b + d) + (f + h));
    if sum == 0.0 {
        bits | ((a.to_bits() | b.to_bits() | c.to_bits() | d.to_bits())
            | (e.to_bits() | f.to_bits() | g.to_bits() | h.to_bits()))
    } else {
        1
    }
}

// Whether every place is +0.0: no bit is set in any of them. A NaN counts as the one pattern that the library reads of it.
// Kept: eight places a turn; one fold over all by the library's bits compares each place, is not packed, and takes twice as long or more.
fn blank(x: &[f64]) -> bool
    ensures { result ≡ list_all plus_zero x.now }
{
    let (eights, others) = x.as_chunks::<8>();
    let bits = others
        .iter()
        .fold(0, |bits, &x| bits | f64_to_bits_with_nan(x));
    eights
        .iter()
        .fold(bits, |bits, eight| with_eight(bits, eight))
        == 0
}

// Whether the places from `used` on are +0.0.
pub fn clear(x: &[f64], used: usize) -> bool
    ensures { result ≡ clear used x.now }
{
    blank(&x[used.min(x.len())..])
}

// Whether the places that hold no entry of an answer are +0.0: those past n of the answers counted, and all behind them.
pub fn clear_answers(x: &[f64; ROOM], count: usize, n: usize) -> bool
    ensures { result ≡ clear_answers count n x.now }
{
    let (answers, rest) = x.split_at(PLACES * count.min(ANSWERS));
    let (answers, _) = answers.as_chunks::<PLACES>();
    answers.iter().all(|answer| clear(answer, n)) & blank(rest)
}

// Whether every place is finite, where those from `used` on are +0.0: only the others are looked at.
pub fn finite(x: &[f64], used: usize) -> bool
    requires { clear used x.now ≡ true }
    ensures { result ≡ all_finite x.now }
{
    evaluation::all_finite(&x[..used.min(x.len())])
}

// The same of the answers' places.
pub fn finite_answers(x: &[f64; ROOM], count: usize, n: usize) -> bool
    requires { clear_answers count n x.now ≡ true }
    ensures { result ≡ all_finite x.now }
{
    let (answers, _) = x.split_at(PLACES * count.min(ANSWERS));
    let (answers, _) = answers.as_chunks::<PLACES>();
    answers
        .iter()
        .all(|answer| evaluation::all_finite(&answer[..n.min(PLACES)]))
}

// The first places of x into all of out.
pub fn copy_out(x: [f64; PLACES], out: &mut [f64])
    requires { length out.old ≤ places }
    ensures { out.new ≡ tab (length out.old) (λ i. x ! i) }
{
    out.copy_from_slice(&x[..out.len()]);
}

// The n numbers of x as a vector.
pub fn vector(x: &[f64], n: usize) -> [f64; PLACES]
    requires n_le_places { n ≤ places }
    requires x_len { length x.now ≡ n }
    ensures { result ≡ vec n (λ i. x.now ! i) }
{
    matrix::vector(Dimension::new(n), |i| x[i])
}
