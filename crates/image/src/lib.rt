// A session's image, for every program that a session crosses to: 5 numbers, as words, and 643 figures, and where each field stands among them;
// enums as numbers; and what is told of an answer.
//
// A number that its field cannot hold is none that is good: a scheme above 255 counts as 255, a history above 1 as held, an attempt above 2 as
// differenced, a wish above 1 as a Jacobian that is given. n and count are taken as they are.
#![tactic(auto)]

ghost use Rattle.std.specs.Prelude.{Ok, ◌≡◌};
ghost use Rattle.image.specs.Image.{scheme_of, history_of, attempt_of, wish_of, attempt_number, head_in, packed, outcome_number, fields};
ghost use Rattle.session.specs.Values.{figured, values_of};

use session::{Answer, Head, History, Refusal, Wish};
// Among the figures; and how many figures there are, today and in the older layout.
pub use session::{
    ABSOLUTE_AT, ANSWERS_AT, DERIVATIVE_AT, FIGURES, JACOBIAN_AT, OLD_FIGURES, PREVIOUS_AT,
    RELATIVE_AT, STATE_AT, STEP_AT, TIME_AT,
};

// ---- how many there are, and where each field stands: behind the one before it

// Places of a vector, of a Jacobian, of the 20 answers.
pub const VECTOR: usize = evaluation::PLACES;

pub const MATRIX: usize = session::JACOBIAN;

pub const ANSWERS: usize = evaluation::ROOM;

// Among the numbers.
pub const SCHEME_AT: usize = 0;

pub const N_AT: usize = SCHEME_AT + 1;

pub const HISTORY_AT: usize = N_AT + 1;

pub const ATTEMPT_AT: usize = HISTORY_AT + 1;

pub const COUNT_AT: usize = ATTEMPT_AT + 1;

pub const NUMBERS: usize = COUNT_AT + 1;

// The bytes that an image is saved as: one for each number, eight for each figure.
pub const BYTES: usize = NUMBERS + 8 * FIGURES;

pub const OLD_BYTES: usize = NUMBERS + 8 * OLD_FIGURES;

// Among the words in which a reply's outcome, refusal and counts cross. The counts are, of Ask, the question's place, 0 and 0; of Ready,
// right-hand sides, Jacobians and matrix products; of Filled, terms, squarings and 0; otherwise 0.
pub const OUTCOME_AT: usize = 0;

pub const REFUSAL_AT: usize = OUTCOME_AT + 1;

pub const COUNTS_AT: usize = REFUSAL_AT + 1;

pub const COUNTS: usize = 3;

pub const WORDS: usize = COUNTS_AT + COUNTS;

// What an answer is; each has the number of its place, from 0 on.
#[derive(Clone, Copy, Debug, PartialEq, Eq)]
pub enum Outcome {
    Refused,
    Ask,
    Ready,
    Resting,
    FirstStep,
    Filled,
    Norm,
}

impl From<Outcome> for u8 {
    ghost from_gives = { λ outcome number. number ≡ outcome_number outcome };

    fn from(outcome: Outcome) -> u8 {
        outcome as u8
    }
}

// What is told of an answer: the outcome, the refusal's number (0 for none), the figure that it carries, and the counts.
// Kept: 0 for none, as the C interface and the pipe say it.
#[derive(Clone, Copy)]
pub struct Reply {
    pub outcome: Outcome,
    pub refusal: u8,
    pub figure: f64,
    pub counts: [u32; COUNTS],
}

// ---- enums as numbers

// Kept: no `From` for session's enums may stand in another crate than theirs; the first says what a number that no byte holds is as a scheme.
#[tactic(auto, unfolding(crate::specs::Image::scheme_of))]
pub fn scheme_of(x: u64) -> u8
    ensures { result ≡ scheme_of x }
{
    u8::try_from(x).unwrap_or(255)
}

#[tactic(auto, unfolding(crate::specs::Image::history_of))]
pub fn history_of(x: u64) -> History
    ensures { result ≡ history_of x }
{
    match x {
        0 => History::Missing,
        _ => History::Held,
    }
}

#[tactic(auto, unfolding(crate::specs::Image::attempt_of))]
fn attempt_of(x: u64) -> Option<Wish>
    ensures { result ≡ attempt_of x }
{
    match x {
        0 => None,
        1 => Some(Wish::Given),
        _ => Some(Wish::Difference),
    }
}

#[tactic(auto, unfolding(crate::specs::Image::wish_of))]
pub fn wish_of(x: u64) -> Wish
    ensures { result ≡ wish_of x }
{
    match x {
        0 => Wish::Difference,
        _ => Wish::Given,
    }
}

#[tactic(auto, unfolding(crate::specs::Image::attempt_number))]
fn attempt_number(a: Option<Wish>) -> u64
    ensures { result ≡ attempt_number a }
{
    match a {
        None => 0,
        Some(Wish::Given) => 1,
        Some(Wish::Difference) => 2,
    }
}

// ---- a head as words

// The head that the words hold.
#[tactic(auto, unfolding(crate::specs::Image::head_in))]
pub fn head_in(words: &[u64; NUMBERS]) -> Head
    ensures { result ≡ head_in words.now }
{
    let [scheme, n, history, attempt, count] = *words;
    Head {
        scheme: scheme_of(scheme),
        n: n as usize,
        history: history_of(history),
        attempt: attempt_of(attempt),
        count: count as usize,
    }
}

// The words that hold a head.
#[tactic(auto, unfolding(crate::specs::Image::packed))]
pub fn numbers_of(k: Head) -> [u64; NUMBERS]
    ensures { result ≡ packed k }
{
    [
        k.scheme as u64,
        k.n as u64,
        k.history as u64,
        attempt_number(k.attempt),
        k.count as u64,
    ]
}

// ---- what is told

// An outcome that carries a figure at the most.
#[tactic(auto, unfolding(session::specs::Values::figured))]
fn figured(outcome: Outcome, figure: f64) -> Reply
    ensures { fields result ≡ figured (outcome_number outcome) «figure» }
{
    Reply {
        outcome,
        refusal: 0,
        figure,
        counts: [0; COUNTS],
    }
}

// What is told of an answer that is no refusal.
#[tactic(auto, unfolding(session::specs::Values::figured, session::specs::Values::values_of))]
fn told(answer: Answer) -> Reply
    ensures { fields result ≡ values_of (Ok answer) }
{
    match answer {
        Answer::Ask(place, time) => Reply {
            outcome: Outcome::Ask,
            refusal: 0,
            figure: time,
            counts: [place, 0, 0],
        },
        Answer::Ready(norm, rhs, jacobians, products) => Reply {
            outcome: Outcome::Ready,
            refusal: 0,
            figure: norm,
            counts: [rhs, jacobians, products],
        },
        Answer::Resting => figured(Outcome::Resting, 0.0),
        Answer::FirstStep(step) => figured(Outcome::FirstStep, step),
        Answer::Filled(terms, squarings) => Reply {
            outcome: Outcome::Filled,
            refusal: 0,
            figure: 0.0,
            counts: [terms, squarings, 0],
        },
        Answer::Norm(norm) => figured(Outcome::Norm, norm),
    }
}

#[tactic(auto, unfolding(session::specs::Values::figured, session::specs::Values::values_of))]
pub fn reply_of(answer: Result<Answer, Refusal>) -> Reply
    ensures { fields result ≡ values_of answer }
{
    match answer {
        Ok(answer) => told(answer),
        Err(refusal) => Reply {
            outcome: Outcome::Refused,
            refusal: u8::from(refusal),
            figure: 0.0,
            counts: [0; COUNTS],
        },
    }
}
