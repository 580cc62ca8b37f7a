// evaluation.rs: what an evaluated right-hand side is tested for. The evaluation itself is the host's.
#![tactic(auto)]

ghost use Rattle.std.specs.Prelude.{◌≡◌, ◌&&◌, ◌+◌, ◌<◌, fold};
ghost use Rattle.loops.specs.Loop.{◌!◌};
ghost use Rattle.float.specs.Arith.{◌⊕◌, ◌⊖◌, finite, mark};
ghost use Rattle.evaluation.specs.Evaluation.{all_finite};

// The places of a vector.
pub const PLACES: usize = 16;
// How many evaluated right-hand sides an attempt keeps.
pub const ANSWERS: usize = 20;
// The room that they take.
pub const ROOM: usize = ANSWERS * PLACES;

// x - x is +0.0 of a finite number and a NaN of any other: the sum of every other one of eight, from `first` on.
fn four(eight: &[f64; 8], first: usize) -> f64
    requires { first < 2 }
    ensures { result ≡ mark (finite (eight.now ! first) && finite (eight.now ! (first + 2)) && finite (eight.now ! (first + 4)) && finite (eight.now ! (first + 6))) }
{
    let a = eight[first];
    let b = eight[first + 2];
    let c = eight[first + 4];
    let d = eight[first + 6];
    (a - a) + (b - b) + (c - c) + (d - d)
}

// The same of each of some entries, added to a sum.
fn rest(x: &[f64], before: f64) -> f64
    ensures { result ≡ fold (λ sum x. sum ⊕ (x ⊖ x)) before x.now }
{
    x.iter().fold(before, |sum, x| sum + (x - x))
}

// Whether every entry is finite. Two sums, of the even places and of the odd ones, eight places a turn.
pub fn all_finite(x: &[f64]) -> bool
    ensures { result ≡ all_finite x.now }
{
    let (eights, others) = x.as_chunks::<8>();
    let mut even = 0.0;
    let mut odd = 0.0;
    for eight in eights {
        even += four(eight, 0);
        odd += four(eight, 1);
    }
    rest(others, even + odd) == 0.0
}
