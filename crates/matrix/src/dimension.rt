// A vector of sixteen places by its entries, and how many of them are in use.
ghost use Rattle.std.specs.Prelude.{◌≡◌, ◌≤◌, ◌<◌, ℕ, Float};
ghost use Rattle.loops.specs.Loop.{◌!◌};
ghost use Rattle.matrix.specs.Vector.{vec};

use std::marker::Model;

// How many places of a vector are in use: at most 16.
#[derive(Clone, Copy)]
pub struct Dimension(usize);

impl Model for Dimension {
    ghost Value = { ℕ };

    ghost view = { λ n. n.0 };

    ghost invariant = { λ n. n.0 ≤ 16 };

    ghost inverse = { λ n. record { 0 = n } };
}

impl Dimension {
    pub fn new(n: usize) -> Dimension
        requires { n ≤ 16 }
        ensures { result ≡ n }
    {
        Dimension(n)
    }

    pub fn get(self) -> usize
        ensures value { result ≡ self }
        ensures most { result ≤ 16 }
    {
        self.0
    }
}

// The vector of n entries, each by its place; +0.0 past them.
// Kept: by array::from_fn each of the sixteen places would test whether it is in use.
pub fn vector<F: Fn(usize) -> f64>(n: Dimension, entry: F) -> [f64; 16]
    requires { (i : ℕ) → i < n → F.pre entry i }
    ensures { (f : ℕ → Float) → ((i : ℕ) (x : Float) → i < n → F.post entry i x → x ≡ f i) → result ≡ vec n f }
{
    let mut out = [0.0; 16];
    for i in 0..n.get() {
        out[i] = entry(i);
    }
    out
}
