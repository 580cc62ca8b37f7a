// Single doubles: the helpers that the Rust has from its library, and the square root.
#![tactic(auto)]

ghost use Rattle.std.specs.Prelude.{◌≡◌, false, cond, suc, ◌+◌, ◌*◌, ◌^◌, ◌<◌, ◌≤◌, ltb};
ghost use Rattle.std.specs.Float.{binary64};
ghost use Rattle.std.specs.Float.Ieee.{odd};
ghost use Rattle.float.specs.Arith.{finite, plus_zero, abs, larger, powi2, powi3, powi4};
ghost use Rattle.float.specs.Root.{sqrt, nearest_root};
ghost use Rattle.float.specs.Digits.{Rooted, Split, Halved, squares_of};

// 2 ^ -52, the distance from 1 to the next double.
pub const EPSILON: f64 = 2.220446049250313e-16;

// Whether x is neither infinite nor a NaN.
pub fn finite(x: f64) -> bool
    ensures { result ≡ finite x }
{
    x.is_finite()
}

// Whether x is +0.0: first by value, so that a NaN's bits are never looked at.
pub fn plus_zero(x: f64) -> bool
    ensures { result ≡ plus_zero x }
{
    x == 0.0 && x.to_bits() == 0
}

// The absolute value; that of a zero is +0.0.
#[tactic(auto, using(crate::proofs::Floats::without_sign))]
pub fn abs(x: f64) -> f64
    ensures { result ≡ abs x }
{
    x.abs()
}

// The larger of two; a NaN is passed over, as f64::max does.
// Kept: std's contract of max leaves open which of 0.0 and -0.0 it gives, so a bit of the result would not be known.
#[tactic(auto, unfolding(crate::specs::Arith::larger))]
pub fn larger(x: f64, y: f64) -> f64
    ensures { result ≡ larger x y }
{
    if x.is_nan() || x < y { y } else { x }
}

// powi(2).
// Kept: the three powers are a line or two each; std's powi is a loop over the exponent's digits, and one function of both would need their cases.
pub fn powi2(x: f64) -> f64
    ensures { result ≡ powi2 x }
{
    x * x
}

// powi(3).
pub fn powi3(x: f64) -> f64
    ensures { result ≡ powi3 x }
{
    x * (x * x)
}

// powi(4).
pub fn powi4(x: f64) -> f64
    ensures { result ≡ powi4 x }
{
    let square = x * x;
    square * square
}

// A number's root so far, and what is left of the number once the root's square is taken off.
#[derive(Clone, Copy)]
pub struct Digits {
    pub root: u64,
    pub rest: u64,
}

impl Digits {
    // One more digit of the root, for a number with two more digits.
    fn digit(self, two: u64) -> Digits
        requires { (self.root < 2 ^ 60) × (self.rest ≤ 2 * self.root) × (two < 4) }
        ensures { Rooted (4 * (self.root * self.root + self.rest) + two) result.root result.rest }
    {
        let trial = self.root * 4 + 1;
        let left = self.rest * 4 + two;
        if trial <= left {
            Digits {
                root: self.root * 2 + 1,
                rest: left - trial,
            }
        } else {
            Digits {
                root: self.root * 2,
                rest: left,
            }
        }
    }

    // The nearest whole number to the root: there is no tie.
    fn rounded(self) -> u64
        requires { self.root < 2 ^ 53 }
        ensures { result ≡ cond (ltb self.root self.rest) (suc self.root) self.root }
    {
        if self.root < self.rest {
            self.root + 1
        } else {
            self.root
        }
    }
}

// The whole part of the root of v.
fn whole_root(v: u64) -> Digits
    requires { v < 2 ^ 54 }
    ensures { Rooted v result.root result.rest }
{
    let mut digits = Digits { root: 0, rest: 0 };
    for i in (0..27u64).rev() {
        digits = digits.digit((v >> (2 * i)) % 4);
    }
    digits
}

// The root of v with 26 digits after the point, as a whole number.
fn long_root(v: u64) -> Digits
    requires { v < 2 ^ 54 }
    ensures { Rooted (v * 4 ^ 26) result.root result.rest }
{
    let mut digits = whole_root(v);
    for _ in 0..26u64 {
        digits = digits.digit(0);
    }
    digits
}

// A number as digits * 2 ^ power.
#[derive(Clone, Copy)]
pub struct Parts {
    pub digits: u64,
    pub power: u64,
}

impl Parts {
    // The same number as digits * 4 ^ power.
    fn halve(self) -> Parts
        requires { (2 ^ 52 ≤ self.digits) × (self.digits < 2 ^ 53) × (1022 ≤ self.power) × (self.power ≤ 3119) }
        ensures { Halved (self.digits * 2 ^ self.power) result.digits result.power }
    {
        let digits = if self.power % 2 == 0 {
            self.digits
        } else {
            self.digits * 2
        };
        Parts {
            digits,
            power: self.power / 2,
        }
    }
}

// The double with the pattern b, which is above zero and finite, by its 53 digits: a subnormal is
// shifted until its leading one stands at bit 52. In units of the square of the smallest double it
// is a whole number.
fn unpack(b: u64) -> Parts
    requires { (0 < b) × (b < 0x7ff0_0000_0000_0000) }
    ensures { Split (squares_of b) result.digits result.power }
{
    let field = b >> 52;
    if field == 0 {
        let shift = b.leading_zeros() - 11;
        Parts {
            digits: b << shift,
            power: 1074 - shift as u64,
        }
    } else {
        Parts {
            digits: b % 0x10_0000_0000_0000 + 0x10_0000_0000_0000,
            power: field + 1073,
        }
    }
}

// q * 2 ^ k of the smallest doubles.
fn pack(q: u64, k: u64) -> f64
    requires { (2 ^ 52 ≤ q) × (q < 2 ^ 53) × (k < 2045) }
    ensures { result ≡ odd 53 false q k 1074 }
{
    f64::from_bits(k * 0x10_0000_0000_0000 + q)
}

// The root of the double with the pattern b, which is above zero and finite.
fn positive_root(b: u64) -> f64
    requires { (0 < b) × (b < 0x7ff0_0000_0000_0000) }
    ensures { result ≡ nearest_root binary64 (squares_of b) }
{
    let half = unpack(b).halve();
    let root = long_root(half.digits);
    pack(root.rounded(), half.power - 26)
}

// The double nearest to the square root of x, as IEEE 754 has it.
// Kept: a rule of the project has the root worked out in whole numbers; std's is the machine's operation.
pub fn sqrt(x: f64) -> f64
    ensures { result ≡ sqrt x }
{
    if x.is_nan() {
        return x;
    }
    let b = x.to_bits();
    if b > 0x8000_0000_0000_0000 {
        return f64::NAN;
    }
    if b % 0x8000_0000_0000_0000 == 0 {
        return x;
    }
    if b == 0x7ff0_0000_0000_0000 {
        return x;
    }
    positive_root(b)
}
