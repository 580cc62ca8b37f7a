// general.rs and its session: the record, what a call refuses it for, the calls, and the bare calls.
#![tactic(auto)]

ghost use Rattle.std.specs.Prelude.{◌≡◌, true, cond, ◌&&◌, List, ◌+◌, ◌*◌, ◌≤◌, ◌<◌, ltb, eqb, Float, length, Some, None, is_some, Ok, MatchOption};
ghost use Rattle.std.specs.List.{list_all};
ghost use Rattle.loops.specs.Loop.{stores, ◌!◌};
ghost use Rattle.evaluation.specs.Evaluation.{all_finite};
ghost use Rattle.evaluation.specs.Sizes.{places, answers_kept};
ghost use Rattle.methods.specs.Order.{order_number};
ghost use Rattle.float.specs.Arith.{zero+, finite};
ghost use Rattle.session.specs.Tests.{refusal_number, tested};
ghost use Rattle.session.specs.Session.{jacobian_room, clear, used_history, used_jacobian, step_clear, wanted, phase_number, admits, names};
ghost use Rattle.session.specs.Session.{good1, history_ok, positive, tolerances_ok, step_ok, good5, session_tests, Sound};
ghost use Rattle.session.specs.Session.{progress};
ghost use Rattle.session.specs.Claims.{Typed};
ghost use Rattle.session.specs.Figures.{FIGURES, answers_at, session_of, head_of, figures_of};
ghost use Rattle.session.specs.Calls.{outcome, told, tell, refuse_lent, opened, nothing, begun, rested, answered, moved, shown, arrived, settled};
ghost use Rattle.session.specs.Calls.{vector_tests, attempt_tests, largest_tests, begin_tests, supply_tests, accept_tests, first_step_tests};
ghost use Rattle.session.specs.Calls.{open_call, begin_call, supply_call, accept_call, drop_call, first_step_call};
ghost use Rattle.session.specs.Lent.{unopened, told_by, refused_by, resting_at, remains, fills};
ghost use Rattle.session.specs.Lent.{lent_call, lent_open, lent_ask, lent_fill};
ghost use Rattle.session.specs.Old.{old_figures, old_session_of, copied, brought_over, lent_bring_over};
ghost use Rattle.session.specs.Bare.{bare, exponential_tests, exponential_call, phi_tests, phi_call, norm_tests, norm_call};

mod attempt;
mod figures;
mod lent;
mod places;

use attempt::Attempt;
use evaluation::{PLACES, ROOM};
use figures::{part, put, wipe};
pub use figures::{
    ABSOLUTE_AT, ANSWERS_AT, DERIVATIVE_AT, FIGURES, Figures, JACOBIAN_AT, OLD_FIGURES,
    PREVIOUS_AT, RELATIVE_AT, STATE_AT, STEP_AT, TIME_AT,
};
use lent::Lent;
use methods::{Dimension, ETD2, Order, Square, StepResult};

// The room of a Jacobian, row by row.
pub const JACOBIAN: usize = figures::JACOBIAN;
// How many schemes there are.
pub const SCHEMES: u8 = 16;
// The size of the largest matrix that is exponentiated.
pub const LARGEST: usize = 20;

// Whether there is an Etd2 history.
#[derive(Clone, Copy)]
pub enum History {
    Missing,
    Held,
}

// What begin is handed, and an attempt goes by: a Jacobian, or the wish to difference.
#[derive(Clone, Copy, PartialEq, Eq)]
pub enum Wish {
    Given,
    Difference,
}

// What a call tells the host. Ask: the question's place in the attempt, from 0, and its time. Ready: the error norm, right-hand sides,
// Jacobians and matrix products. Filled: the terms and squarings of the exponential.
#[derive(Clone, Copy)]
pub enum Answer {
    Ask(u32, f64),
    Ready(f64, u32, u32, u32),
    Resting,
    FirstStep(f64),
    Filled(u32, u32),
    Norm(f64),
}

// Why a call is refused: places or a dimension, the scheme with its history and answers, a number that is not finite, a tolerance, a step,
// arithmetic that is not admitted, the phase, an answer to another question; and, by the crate `table` alone, a table of equations.
#[derive(Clone, Copy, Debug, PartialEq, Eq)]
pub enum Refusal {
    Places,
    Scheme,
    NotFinite,
    Tolerance,
    Step,
    Arithmetic,
    Phase,
    Table,
    Question,
}

impl From<Refusal> for u8 {
    ghost from_gives = { λ refusal number. number ≡ refusal_number refusal };

    // Its number in the table of refusals.
    fn from(refusal: Refusal) -> u8 {
        match refusal {
            Refusal::Places => 1,
            Refusal::Scheme => 2,
            Refusal::NotFinite => 3,
            Refusal::Tolerance => 4,
            Refusal::Step => 5,
            Refusal::Arithmetic => 6,
            Refusal::Phase => 7,
            Refusal::Table => 8,
            Refusal::Question => 9,
        }
    }
}

// A run and its attempt. Entries past n and places not in use are +0.0; the Jacobian fills the first n * n places, row by row; answer k
// begins at place 16 k.
// Kept: the scheme is a number, and step, Jacobian, answers and previous have their places beside what says which are in use: whatever a host or an image holds there is handed in, and is
// refused by 2 or by 1.
#[derive(Clone, Copy)]
pub struct Session {
    pub scheme: u8,
    pub n: usize,
    pub time: f64,
    pub state: [f64; PLACES],
    pub derivative: [f64; PLACES],
    pub relative: f64,
    pub absolute: [f64; PLACES],
    pub history: History,
    pub previous: [f64; PLACES],
    pub attempt: Option<Wish>,
    pub step: f64,
    pub jacobian: [f64; JACOBIAN],
    pub count: usize,
    pub answers: [f64; ROOM],
}

// A session of the older layout: one absolute tolerance for all components.
// Kept: a layout that is over changes no more, and the session's fields do; a type parameter for the one that differs would stand in every signature of a Session.
#[derive(Clone, Copy)]
pub struct OldSession {
    pub scheme: u8,
    pub n: usize,
    pub time: f64,
    pub state: [f64; PLACES],
    pub derivative: [f64; PLACES],
    pub relative: f64,
    pub absolute: f64,
    pub history: History,
    pub previous: [f64; PLACES],
    pub attempt: Option<Wish>,
    pub step: f64,
    pub jacobian: [f64; JACOBIAN],
    pub count: usize,
    pub answers: [f64; ROOM],
}

// What of a session is no double; its figures are lent beside it.
#[derive(Clone, Copy)]
pub struct Head {
    pub scheme: u8,
    pub n: usize,
    pub history: History,
    pub attempt: Option<Wish>,
    pub count: usize,
}

// An answer or a refusal, and the head of the session whose figures the call left.
// Kept: beside Told, with a head in a session's place; a type parameter for one field would stand in the signature of every call.
#[derive(Clone, Copy)]
pub struct Left {
    pub answer: Result<Answer, Refusal>,
    pub head: Head,
}

// An answer or a refusal, and the session that comes back.
#[derive(Clone, Copy)]
pub struct Told {
    pub answer: Result<Answer, Refusal>,
    pub session: Session,
}

// The phase of a session: at rest, asking the question at a place, or with all its answers and waiting for accept.
#[derive(Clone, Copy)]
pub enum Phase {
    Rest,
    Asking(usize),
    Waiting,
}

impl Phase {
    // The same for every question.
    #[tactic(auto, unfolding(crate::specs::Session::phase_number))]
    fn number(self) -> u8
        ensures { result ≡ phase_number self }
    {
        match self {
            Phase::Rest => 0,
            Phase::Asking(_) => 1,
            Phase::Waiting => 2,
        }
    }
}

// ---- what a session is refused for

// How many answers an attempt asks for.
#[tactic(auto, unfolding(crate::specs::Session::wanted))]
pub fn wanted(scheme: u8, n: Dimension, attempt: Option<Wish>) -> usize
    ensures { (result ≡ wanted scheme n attempt) × (result ≤ answers_kept) }
{
    match attempt {
        None => 0,
        Some(Wish::Given) => schemes::questions(scheme),
        Some(Wish::Difference) => n.get() + schemes::questions(scheme),
    }
}

#[tactic(auto, unfolding(crate::specs::Session::used_history))]
fn used_history(h: History, n: usize) -> usize
    ensures { result ≡ used_history h n }
{
    match h {
        History::Missing => 0,
        History::Held => n,
    }
}

#[tactic(auto, unfolding(crate::specs::Session::used_jacobian))]
fn used_jacobian(a: Option<Wish>, n: Dimension) -> usize
    ensures { result ≡ used_jacobian a n }
{
    match a {
        None => 0,
        Some(Wish::Given) => n.get() * n.get(),
        Some(Wish::Difference) => 0,
    }
}

#[tactic(auto, unfolding(crate::specs::Session::step_clear))]
fn step_clear(a: Option<Wish>, step: f64) -> bool
    ensures { result ≡ step_clear a step }
{
    match a {
        None => float::plus_zero(step),
        Some(_) => true,
    }
}

#[tactic(auto, unfolding(crate::specs::Session::history_ok))]
fn history_ok(h: History, scheme: u8) -> bool
    ensures { result ≡ history_ok h scheme }
{
    match h {
        History::Missing => true,
        History::Held => scheme == ETD2,
    }
}

// A call wants the session in one phase, or takes it in any.
#[tactic(auto, unfolding(crate::specs::Session::admits))]
fn admits(wants: Option<Phase>, phase: Phase) -> bool
    ensures { result ≡ admits wants phase }
{
    match wants {
        None => true,
        Some(one) => one.number() == phase.number(),
    }
}

// A call that wants a question to be asked wants the one at its place.
#[tactic(auto, unfolding(crate::specs::Session::names))]
fn names(wants: Option<Phase>, place: usize) -> bool
    ensures { result ≡ names wants place }
{
    match wants {
        Some(Phase::Asking(one)) => one == place,
        _ => true,
    }
}

#[tactic(auto, unfolding(crate::specs::Session::positive))]
fn positive(x: f64) -> bool
    ensures { result ≡ positive x }
{
    float::finite(x) & (0.0 < x)
}

// A step is finite and not zero.
#[tactic(auto, unfolding(crate::specs::Session::step_ok))]
pub fn step_ok(h: f64) -> bool
    ensures { result ≡ step_ok h }
{
    float::finite(h) & !(h == 0.0)
}

// Whether each is finite and positive.
fn all_positive(x: &[f64]) -> bool
    ensures { result ≡ list_all positive x.now }
{
    x.iter().all(|&x| positive(x))
}

fn tolerances_ok(n: Dimension, relative: f64, absolute: &[f64; PLACES]) -> bool
    ensures { result ≡ tolerances_ok n «relative» absolute.now }
{
    positive(relative) & all_positive(&absolute[..n.get()])
}

#[tactic(auto, unfolding(crate::specs::Session::good5))]
fn good5(a: Option<Wish>, step: f64) -> bool
    ensures { result ≡ good5 a step }
{
    match a {
        None => true,
        Some(_) => step_ok(step),
    }
}

// 1: the dimension, and every place not in use.
// Kept: head and figures apart, here and in the tests of the calls, which go by this one: they are a Lent only once the dimension is tested. Its bounds are tested by hand: a session's n is from 1,
// a Dimension from 0.
#[tactic(auto, unfolding(crate::specs::Session::good1, crate::specs::Figures::session_of, crate::specs::Session::size_ok))]
fn good1(k: Head, figures: &Figures) -> bool
    ensures { result ≡ good1 (session_of k figures.now) }
{
    if (1 <= k.n) & (k.n <= PLACES) {
        let s = Lent { head: k, figures };
        return s.run_places() & s.attempt_places();
    }
    false
}

// Why a session is refused, if it is, by a call that wants this phase.
pub fn test_session(wants: Option<Phase>, k: Head, figures: &Figures) -> Result<(), Refusal>
    ensures { result ≡ tested (session_tests wants (session_of k figures.now)) }
{
    if !good1(k, figures) {
        return Err(Refusal::Places);
    }
    let s = Lent { head: k, figures };
    if !s.good2() {
        return Err(Refusal::Scheme);
    }
    let in_phase = s.good7(wants);
    let asked = s.good9(wants);
    let tolerances = s.good4();
    let step = good5(k.attempt, figures[STEP_AT]);
    let numbers = s.good3();
    if !in_phase {
        return Err(Refusal::Phase);
    }
    if !asked {
        return Err(Refusal::Question);
    }
    if !tolerances {
        return Err(Refusal::Tolerance);
    }
    if !step {
        return Err(Refusal::Step);
    }
    if !numbers {
        return Err(Refusal::NotFinite);
    }
    Ok(())
}

// ---- what is refused of what is handed in

// 1, of the arrays of a run: the places past n are +0.0, and those of a history that there is not.
fn run_clear(
    n: usize,
    history: History,
    absolute: &[f64; PLACES],
    state: &[f64; PLACES],
    derivative: &[f64; PLACES],
    previous: &[f64; PLACES],
) -> bool
    ensures { result ≡ (clear n absolute.now && clear n state.now && clear n derivative.now && clear (used_history history n) previous.now) }
{
    places::clear(absolute, n)
        & places::clear(state, n)
        & places::clear(derivative, n)
        & places::clear(previous, used_history(history, n))
}

// 3, of a run: its time, and of its arrays the places in use.
fn run_finite(
    n: usize,
    history: History,
    time: f64,
    state: &[f64; PLACES],
    derivative: &[f64; PLACES],
    previous: &[f64; PLACES],
) -> bool
    requires state_value { (clear n state.now ≡ true) × (clear n derivative.now ≡ true) }
    requires previous_value { clear (used_history history n) previous.now ≡ true }
    ensures { result ≡ (finite «time» && all_finite state.now && all_finite derivative.now && all_finite previous.now) }
{
    float::finite(time)
        & places::finite(state, n)
        & places::finite(derivative, n)
        & places::finite(previous, used_history(history, n))
}

// Why a run that is to be opened is refused, if it is, before its figures are written: the tests of a session that its attempt, which holds nothing, does not pass by itself.
// Kept: what a run begins with one by one, as `put_run` has it.
fn test_run(
    scheme: u8,
    n: usize,
    history: History,
    time: f64,
    relative: f64,
    absolute: &[f64; PLACES],
    state: &[f64; PLACES],
    derivative: &[f64; PLACES],
    previous: &[f64; PLACES],
) -> Result<(), Refusal>
    ensures { result ≡ tested (session_tests None (opened (record {
      scheme = scheme;
      n = n;
      time = «time»;
      state = state.now;
      derivative = derivative.now;
      relative = «relative»;
      absolute = absolute.now;
      history = history;
      previous = previous.now;
    }))) }
{
    if !((1 <= n) & (n <= PLACES)) {
        return Err(Refusal::Places);
    }
    if !run_clear(n, history, absolute, state, derivative, previous) {
        return Err(Refusal::Places);
    }
    if !((scheme < SCHEMES) & history_ok(history, scheme)) {
        return Err(Refusal::Scheme);
    }
    if !tolerances_ok(Dimension::new(n), relative, absolute) {
        return Err(Refusal::Tolerance);
    }
    if !run_finite(n, history, time, state, derivative, previous) {
        return Err(Refusal::NotFinite);
    }
    Ok(())
}

fn test_vector(n: usize, x: &[f64; PLACES]) -> Result<(), Refusal>
    ensures { result ≡ tested (vector_tests n x.now true) }
{
    if !places::clear(x, n) {
        return Err(Refusal::Places);
    }
    if !evaluation::all_finite(x) {
        return Err(Refusal::NotFinite);
    }
    Ok(())
}

fn test_attempt(
    n: Dimension,
    step: f64,
    a: Option<Wish>,
    jacobian: &[f64; JACOBIAN],
    lent: usize,
) -> Result<(), Refusal>
    ensures { result ≡ tested (attempt_tests n «step» a jacobian.now lent) }
{
    let used = used_jacobian(a, n);
    if !(places::clear(jacobian, used) & (lent == n.get())) {
        return Err(Refusal::Places);
    }
    if !step_ok(step) {
        return Err(Refusal::Step);
    }
    if !places::finite(jacobian, used) {
        return Err(Refusal::NotFinite);
    }
    Ok(())
}

fn test_largest(largest: f64) -> Result<(), Refusal>
    ensures { result ≡ tested (largest_tests largest) }
{
    if !(float::EPSILON <= largest) {
        return Err(Refusal::Step);
    }
    Ok(())
}

// ---- what a call is refused for: the session, then what is handed in

fn test_begin(
    k: Head,
    figures: &Figures,
    step: f64,
    a: Option<Wish>,
    jacobian: &[f64; JACOBIAN],
    lent: usize,
) -> Result<(), Refusal>
    ensures { result ≡ tested (begin_tests (session_of k figures.now) «step» a jacobian.now lent) }
{
    test_session(Some(Phase::Rest), k, figures)?;
    test_attempt(Dimension::new(k.n), step, a, jacobian, lent)
}

fn test_supply(
    k: Head,
    figures: &Figures,
    place: usize,
    answer: &[f64; PLACES],
    lent: usize,
) -> Result<(), Refusal>
    ensures { result ≡ tested (supply_tests (session_of k figures.now) place answer.now lent) }
{
    test_session(Some(Phase::Asking(place)), k, figures)?;
    if lent != k.n {
        return Err(Refusal::Places);
    }
    test_vector(k.n, answer)
}

fn test_accept(k: Head, figures: &Figures, derivative: &[f64; PLACES]) -> Result<(), Refusal>
    ensures { result ≡ tested (accept_tests (session_of k figures.now) derivative.now) }
{
    test_session(Some(Phase::Waiting), k, figures)?;
    test_vector(k.n, derivative)
}

fn test_first_step(k: Head, figures: &Figures, largest: f64) -> Result<(), Refusal>
    ensures { result ≡ tested (first_step_tests (session_of k figures.now) «largest») }
{
    test_session(None, k, figures)?;
    test_largest(largest)
}

// ---- what of a session changes

// Kept: head and figures apart, and what a session passed in a `requires`: a head is handed on by value while the figures change in place, and the tests are of the figures before the change, so
// that no struct over the figures can hold them.

// An attempt that has no answer yet, of a session at rest.
// Kept: slices here, in `put_answer` and in `rest`, whose proofs need that each entry is a double: a slice's type tells it, that of a reference to an array does not.
fn put_attempt(
    k: Head,
    figures: &mut [f64],
    step: f64,
    attempt: Option<Wish>,
    jacobian: &[f64],
) -> Head
    requires figures_len { (length figures.old ≡ FIGURES) × (length jacobian.now ≡ jacobian_room) }
    requires figures_value { tested (session_tests (Some Phase.Rest) (session_of k figures.old)) ≡ Ok tt }
    requires jacobian_value { clear (used_jacobian attempt k.n) jacobian.now ≡ true }
    ensures begun { session_of result figures.new ≡ begun (session_of k figures.old) «step» attempt jacobian.now }
    ensures typed { Typed (session_of k figures.old) }
{
    let used = used_jacobian(attempt, Dimension::new(k.n));
    figures[STEP_AT] = step;
    put(&jacobian[..used], figures, JACOBIAN_AT);
    Head { attempt, ..k }
}

// One answer more.
fn put_answer(k: Head, figures: &mut [f64], answer: &[f64; PLACES]) -> Head
    requires figures_len { length figures.old ≡ FIGURES }
    requires figures_value { tested (session_tests (Some (Phase.Asking k.count)) (session_of k figures.old)) ≡ Ok tt }
    ensures answered { session_of result figures.new ≡ answered (session_of k figures.old) answer.now }
    ensures back { stores (λ _ _. zero+) (answers_at + places * k.count) places figures.new ≡ figures.old }
{
    let count = k.count;
    put(answer, figures, ANSWERS_AT + PLACES * count);
    Head {
        count: count + 1,
        ..k
    }
}

// The places of the answer that was put last hold nothing again.
fn take_answer_back(k: Head, figures: &mut Figures)
    requires { k.count < answers_kept }
    ensures { figures.new ≡ stores (λ _ _. zero+) (answers_at + places * k.count) places figures.old }
{
    let count = k.count;
    wipe(figures, ANSWERS_AT + PLACES * count, PLACES);
}

// No attempt: what it held is +0.0.
fn rest(k: Head, figures: &mut [f64]) -> Head
    requires figures_len { length figures.old ≡ FIGURES }
    requires figures_value { tested (session_tests None (session_of k figures.old)) ≡ Ok tt }
    ensures { session_of result figures.new ≡ rested (session_of k figures.old) }
{
    let used = used_jacobian(k.attempt, Dimension::new(k.n));
    figures[STEP_AT] = 0.0;
    wipe(figures, JACOBIAN_AT, used);
    wipe(figures, ANSWERS_AT, PLACES * k.count);
    Head {
        attempt: None,
        count: 0,
        ..k
    }
}

// A time and a state, at rest; Etd2 keeps the nonlinear part.
fn move_on(
    k: Head,
    figures: &mut Figures,
    time: f64,
    state: &[f64; PLACES],
    derivative: &[f64; PLACES],
    nonlinear: &[f64; PLACES],
) -> Head
    requires { tested (session_tests None (session_of k figures.old)) ≡ Ok tt }
    ensures { session_of result figures.new ≡ moved (session_of k figures.old) «time» state.now derivative.now nonlinear.now }
{
    let next = rest(k, figures);
    figures[TIME_AT] = time;
    put(state, figures, STATE_AT);
    put(derivative, figures, DERIVATIVE_AT);
    if k.scheme == ETD2 {
        put(nonlinear, figures, PREVIOUS_AT);
        return Head {
            history: History::Held,
            ..next
        };
    }
    next
}

// A run with no attempt, in all of the figures.
// Kept: what a run begins with is handed on one by one from the two ways to open to here, as the C interface hands it in; a struct of it would be made by each and taken apart here.
fn put_run(
    time: f64,
    relative: f64,
    absolute: &[f64; PLACES],
    state: &[f64; PLACES],
    derivative: &[f64; PLACES],
    previous: &[f64; PLACES],
    figures: &mut Figures,
)
    ensures { (k : Head) → k.attempt ≡ None → k.count ≡ 0 → session_of k figures.new ≡ opened (record {
      scheme = k.scheme;
      n = k.n;
      time = «time»;
      state = state.now;
      derivative = derivative.now;
      relative = «relative»;
      absolute = absolute.now;
      history = k.history;
      previous = previous.now;
    }) }
{
    figures[TIME_AT] = time;
    figures[STEP_AT] = 0.0;
    figures[RELATIVE_AT] = relative;
    put(absolute, figures, ABSOLUTE_AT);
    put(state, figures, STATE_AT);
    put(derivative, figures, DERIVATIVE_AT);
    put(previous, figures, PREVIOUS_AT);
    wipe(figures, JACOBIAN_AT, JACOBIAN + ROOM);
}

// What a refused open leaves: n and scheme 0, no attempt, no history, every figure +0.0.
pub fn put_nothing(figures: &mut Figures) -> Head
    ensures { session_of result figures.new ≡ nothing }
{
    wipe(figures, 0, FIGURES);
    no_head()
}

// The head of a run that is to be opened.
fn unopened(scheme: u8, n: usize, history: History) -> Head
    ensures { result ≡ unopened scheme n history }
{
    Head {
        scheme,
        n,
        history,
        attempt: None,
        count: 0,
    }
}

// The head that a refused open leaves.
#[tactic(auto, unfolding(crate::specs::Session::fresh, crate::specs::Session::idle, crate::specs::Calls::nothing, crate::specs::Calls::opened))]
pub fn no_head() -> Head
    ensures { result ≡ head_of nothing }
{
    Head {
        scheme: 0,
        n: 0,
        history: History::Missing,
        attempt: None,
        count: 0,
    }
}

// ---- the calls over lent figures, once their lengths are tested: what is tested, what is worked out, what of the session changes

// Refused, with the head as it came.
pub fn refused(k: Head, refusal: Refusal) -> Left
    ensures { result ≡ refused_by k refusal }
{
    Left {
        answer: Err(refusal),
        head: k,
    }
}

fn resting(k: Head) -> Left
    ensures { result ≡ resting_at k }
{
    Left {
        answer: Ok(Answer::Resting),
        head: k,
    }
}

#[tactic(auto, unfolding(crate::specs::Calls::open_call, crate::specs::Tests::unless))]
pub fn open_over(
    scheme: u8,
    n: usize,
    history: History,
    time: f64,
    relative: f64,
    absolute: &[f64; PLACES],
    state: &[f64; PLACES],
    derivative: &[f64; PLACES],
    previous: &[f64; PLACES],
    figures: &mut Figures,
) -> Left
    ensures { told_by result figures.new ≡ open_call (record {
      scheme = scheme;
      n = n;
      time = «time»;
      state = state.now;
      derivative = derivative.now;
      relative = «relative»;
      absolute = absolute.now;
      history = history;
      previous = previous.now;
    }) }
{
    if let Err(refusal) = test_run(
        scheme, n, history, time, relative, absolute, state, derivative, previous,
    ) {
        return refused(put_nothing(figures), refusal);
    }
    put_run(
        time, relative, absolute, state, derivative, previous, figures,
    );
    resting(unopened(scheme, n, history))
}

// Kept: step, wish and Jacobian are handed on from the two ways to begin to here; a struct of them would be made by each and taken apart here.
pub fn begin_over(
    k: Head,
    figures: &mut Figures,
    step: f64,
    wish: Wish,
    jacobian: &[f64; JACOBIAN],
    out: &mut [f64],
) -> Left
    ensures { outcome (told_by result figures.new) out.new
        ≡ begin_call (session_of k figures.old) «step» wish jacobian.now out.old }
{
    let attempt = Some(wish);
    if let Err(refusal) = test_begin(k, figures, step, attempt, jacobian, out.len()) {
        return refused(k, refusal);
    }
    let next = put_attempt(k, figures, step, attempt, jacobian);
    let tried = Attempt {
        head: next,
        figures,
    };
    let Some(answer) = tried.show(out) else {
        return refused(rest(next, figures), Refusal::Arithmetic);
    };
    Left {
        answer: Ok(answer),
        head: next,
    }
}

pub fn supply_over(
    k: Head,
    figures: &mut Figures,
    place: usize,
    answer: &[f64; PLACES],
    out: &mut [f64],
) -> Left
    ensures { outcome (told_by result figures.new) out.new ≡ supply_call (session_of k figures.old) place answer.now out.old }
{
    if let Err(refusal) = test_supply(k, figures, place, answer, out.len()) {
        return refused(k, refusal);
    }
    let next = put_answer(k, figures, answer);
    let tried = Attempt {
        head: next,
        figures,
    };
    let Some(answer) = tried.show(out) else {
        take_answer_back(k, figures);
        return refused(k, Refusal::Arithmetic);
    };
    Left {
        answer: Ok(answer),
        head: next,
    }
}

// The candidate becomes the state; refused where the time is not finite.
fn arrive(
    k: Head,
    figures: &mut Figures,
    candidate: [f64; PLACES],
    derivative: &[f64; PLACES],
    nonlinear: [f64; PLACES],
) -> Left
    requires { tested (session_tests None (session_of k figures.old)) ≡ Ok tt }
    ensures { told_by result figures.new ≡ arrived (session_of k figures.old) candidate derivative.now nonlinear }
{
    let t = figures[TIME_AT] + figures[STEP_AT];
    if float::finite(t) {
        return resting(move_on(k, figures, t, &candidate, derivative, &nonlinear));
    }
    refused(k, Refusal::Arithmetic)
}

fn settle(k: Head, figures: &mut Figures, derivative: &[f64; PLACES]) -> Left
    requires { tested (session_tests None (session_of k figures.old)) ≡ Ok tt }
    ensures { told_by result figures.new ≡ settled (session_of k figures.old) derivative.now (progress (session_of k figures.old)) }
{
    let tried = Attempt { head: k, figures };
    let Some(step) = tried.run_pass() else {
        return refused(k, Refusal::Arithmetic);
    };
    match step {
        StepResult::Question(_, _) => refused(k, Refusal::Arithmetic),
        StepResult::Done(candidate, _, nonlinear, _) => {
            arrive(k, figures, candidate, derivative, nonlinear)
        }
    }
}

pub fn accept_over(k: Head, figures: &mut Figures, derivative: &[f64; PLACES]) -> Left
    ensures { told_by result figures.new ≡ accept_call (session_of k figures.old) derivative.now }
{
    if let Err(refusal) = test_accept(k, figures, derivative) {
        return refused(k, refusal);
    }
    settle(k, figures, derivative)
}

#[tactic(auto, unfolding(crate::specs::Calls::drop_call, crate::specs::Tests::unless))]
pub fn drop_over(k: Head, figures: &mut Figures) -> Left
    ensures { told_by result figures.new ≡ drop_call (session_of k figures.old) }
{
    if let Err(refusal) = test_session(None, k, figures) {
        return refused(k, refusal);
    }
    resting(rest(k, figures))
}

fn first_step_over(k: Head, figures: &Figures, largest: f64) -> Result<Answer, Refusal>
    ensures { told result (session_of k figures.now) ≡ first_step_call (session_of k figures.now) «largest» }
{
    test_first_step(k, figures, largest)?;
    Ok(Answer::FirstStep(engine::estimate_initial_step(
        Dimension::new(k.n),
        figures[RELATIVE_AT],
        part(figures, ABSOLUTE_AT),
        part(figures, STATE_AT),
        part(figures, DERIVATIVE_AT),
        largest,
    )))
}

impl Head {
    // Opens a run: it rests.
    pub fn open(
        scheme: u8,
        n: usize,
        time: f64,
        state: &[f64],
        derivative: &[f64],
        relative: f64,
        absolute: &[f64],
        history: History,
        previous: &[f64],
        figures: &mut [f64],
    ) -> Left
        ensures { remains result figures.new ≡ lent_open
            (eqb (length figures.old) FIGURES && eqb (length absolute.now) places
            && eqb (length state.now) places && eqb (length derivative.now) places && eqb (length previous.now) places)
            figures.old (open_call (record {
              scheme = scheme;
              n = n;
              time = «time»;
              state = state.now;
              derivative = derivative.now;
              relative = «relative»;
              absolute = absolute.now;
              history = history;
              previous = previous.now;
            })) }
    {
        let (Some(absolute), Some(state), Some(derivative), Some(previous)) = (
            absolute.as_array(),
            state.as_array(),
            derivative.as_array(),
            previous.as_array(),
        ) else {
            return refused(no_head(), Refusal::Places);
        };
        let Some(figures) = figures.as_mut_array() else {
            return refused(no_head(), Refusal::Places);
        };
        open_over(
            scheme, n, history, time, relative, absolute, state, derivative, previous, figures,
        )
    }

    // Begins an attempt: the first question, or the candidate where there is none, fills `out`.
    pub fn begin(
        self,
        figures: &mut [f64],
        step: f64,
        wish: Wish,
        jacobian: &[f64],
        out: &mut [f64],
    ) -> Left
        ensures { fills result figures.new out.new ≡ lent_fill
            (eqb (length figures.old) FIGURES && eqb (length jacobian.now) jacobian_room)
            self figures.old out.old (λ s o. begin_call s «step» wish jacobian.now o) }
    {
        let Some(jacobian) = jacobian.as_array() else {
            return refused(self, Refusal::Places);
        };
        let Some(figures) = figures.as_mut_array() else {
            return refused(self, Refusal::Places);
        };
        begin_over(self, figures, step, wish, jacobian, out)
    }

    // Supplies the derivative that the question at `place` asked for: the next question, or the candidate, fills `out`.
    pub fn supply(self, figures: &mut [f64], place: usize, answer: &[f64], out: &mut [f64]) -> Left
        ensures { fills result figures.new out.new ≡ lent_fill
            (eqb (length figures.old) FIGURES && eqb (length answer.now) places)
            self figures.old out.old (λ s o. supply_call s place answer.now o) }
    {
        let Some(answer) = answer.as_array() else {
            return refused(self, Refusal::Places);
        };
        let Some(figures) = figures.as_mut_array() else {
            return refused(self, Refusal::Places);
        };
        supply_over(self, figures, place, answer, out)
    }

    // Accepts the candidate, with the derivative there.
    pub fn accept(self, figures: &mut [f64], derivative: &[f64]) -> Left
        ensures { remains result figures.new ≡ lent_call
            (eqb (length figures.old) FIGURES && eqb (length derivative.now) places)
            self figures.old (λ s. accept_call s derivative.now) }
    {
        let Some(derivative) = derivative.as_array() else {
            return refused(self, Refusal::Places);
        };
        let Some(figures) = figures.as_mut_array() else {
            return refused(self, Refusal::Places);
        };
        accept_over(self, figures, derivative)
    }

    // Drops the attempt, if there is one.
    pub fn drop(self, figures: &mut [f64]) -> Left
        ensures { remains result figures.new ≡ lent_call (eqb (length figures.old) FIGURES) self figures.old drop_call }
    {
        let Some(figures) = figures.as_mut_array() else {
            return refused(self, Refusal::Places);
        };
        drop_over(self, figures)
    }

    // The first step that the run's figures suggest, at most `largest`. The session stays as it is.
    pub fn first_step(self, figures: &[f64], largest: f64) -> Result<Answer, Refusal>
        ensures { result ≡ lent_ask (eqb (length figures.now) FIGURES) (first_step_call (session_of self figures.now) «largest») }
    {
        let Some(figures) = figures.as_array() else {
            return Err(Refusal::Places);
        };
        first_step_over(self, figures, largest)
    }
}

// ---- a session by value as head and figures, and back

impl Session {
    pub fn head(self) -> Head
        ensures { result ≡ head_of self }
    {
        Head {
            scheme: self.scheme,
            n: self.n,
            history: self.history,
            attempt: self.attempt,
            count: self.count,
        }
    }

    pub fn figures(self) -> Figures
        ensures { (result ≡ figures_of self) × (session_of (head_of self) result ≡ self) }
    {
        let mut figures = [0.0; FIGURES];
        figures::put_session(self, &mut figures);
        figures
    }

    #[tactic(auto, unfolding(crate::specs::Figures::session_of))]
    pub fn of(k: Head, figures: Figures) -> Session
        ensures { result ≡ session_of k figures }
    {
        Session {
            scheme: k.scheme,
            n: k.n,
            time: figures[TIME_AT],
            state: *part(&figures, STATE_AT),
            derivative: *part(&figures, DERIVATIVE_AT),
            relative: figures[RELATIVE_AT],
            absolute: *part(&figures, ABSOLUTE_AT),
            history: k.history,
            previous: *part(&figures, PREVIOUS_AT),
            attempt: k.attempt,
            step: figures[STEP_AT],
            jacobian: *part(&figures, JACOBIAN_AT),
            count: k.count,
            answers: *part(&figures, ANSWERS_AT),
        }
    }
}

// The session that a call left in the figures, with its answer.
fn given_back(left: Left, figures: Figures) -> Told
    ensures { result ≡ told_by left figures }
{
    Told {
        answer: left.answer,
        session: Session::of(left.head, figures),
    }
}

// ---- the calls

// Kept: by value, beside those over lent figures: two ways in to each body, with outcomes of two types.
impl Session {
    // Opens a run: it rests.
    pub fn open(
        scheme: u8,
        n: usize,
        time: f64,
        state: [f64; PLACES],
        derivative: [f64; PLACES],
        relative: f64,
        absolute: [f64; PLACES],
        history: History,
        previous: [f64; PLACES],
    ) -> Told
        ensures { result ≡ open_call (record {
          scheme = scheme;
          n = n;
          time = time;
          state = state;
          derivative = derivative;
          relative = relative;
          absolute = absolute;
          history = history;
          previous = previous;
        }) }
    {
        let mut figures = [0.0; FIGURES];
        let left = open_over(
            scheme,
            n,
            history,
            time,
            relative,
            &absolute,
            &state,
            &derivative,
            &previous,
            &mut figures,
        );
        given_back(left, figures)
    }

    // Begins an attempt: the first question, or the candidate where there is none, fills `out`.
    #[tactic(auto, unfolding(crate::specs::Lent::told_by, crate::specs::Figures::session_of, crate::specs::Figures::head_of))]
    pub fn begin(self, step: f64, wish: Wish, jacobian: [f64; JACOBIAN], out: &mut [f64]) -> Told
        ensures { outcome result out.new ≡ begin_call self step wish jacobian out.old }
    {
        let mut figures = self.figures();
        let left = begin_over(self.head(), &mut figures, step, wish, &jacobian, &mut *out);
        given_back(left, figures)
    }

    // Supplies the derivative that the question at `place` asked for: the next question, or the candidate, fills `out`.
    #[tactic(auto, unfolding(crate::specs::Lent::told_by, crate::specs::Figures::session_of, crate::specs::Figures::head_of))]
    pub fn supply(self, place: usize, answer: [f64; PLACES], out: &mut [f64]) -> Told
        ensures { outcome result out.new ≡ supply_call self place answer out.old }
    {
        let mut figures = self.figures();
        let left = supply_over(self.head(), &mut figures, place, &answer, &mut *out);
        given_back(left, figures)
    }

    // Accepts the candidate, with the derivative there.
    #[tactic(auto, unfolding(crate::specs::Lent::told_by, crate::specs::Figures::session_of, crate::specs::Figures::head_of))]
    pub fn accept(self, derivative: [f64; PLACES]) -> Told
        ensures { result ≡ accept_call self derivative }
    {
        let mut figures = self.figures();
        let left = accept_over(self.head(), &mut figures, &derivative);
        given_back(left, figures)
    }

    // Drops the attempt, if there is one.
    #[tactic(auto, unfolding(crate::specs::Lent::told_by, crate::specs::Figures::session_of, crate::specs::Figures::head_of))]
    pub fn drop(self) -> Told
        ensures { result ≡ drop_call self }
    {
        let mut figures = self.figures();
        let left = drop_over(self.head(), &mut figures);
        given_back(left, figures)
    }

    // The first step that the run's figures suggest, at most `largest`.
    pub fn first_step(self, largest: f64) -> Told
        ensures { result ≡ first_step_call self largest }
    {
        let figures = self.figures();
        let answer = first_step_over(self.head(), &figures, largest);
        Told {
            answer,
            session: self,
        }
    }
}

// ---- a session of the old layout

// What place i holds where one tolerance is copied n times.
fn copied_entry(one: f64, i: usize, n: usize) -> f64
    ensures { result ≡ cond (ltb i n) one zero+ }
{
    if i < n { one } else { 0.0 }
}

// One tolerance in the first n of sixteen places, in all where n is above 16, and +0.0 in the others.
fn copied(n: usize, one: f64) -> [f64; PLACES]
    ensures { result ≡ copied n one }
{
    matrix::vector(Dimension::new(PLACES), |i| copied_entry(one, i, n))
}

impl OldSession {
    // The session that it is today: its tolerance is copied n times, and nothing is judged.
    // Kept: an array that goes into a literal from another value's field is named first; the borrow checker covers no other form.
    #[tactic(auto, unfolding(crate::specs::Old::brought_over))]
    pub fn bring_over(self) -> Session
        ensures { result ≡ brought_over self }
    {
        let absolute = copied(self.n, self.absolute);
        let state = self.state;
        let derivative = self.derivative;
        let previous = self.previous;
        let jacobian = self.jacobian;
        let answers = self.answers;
        Session {
            scheme: self.scheme,
            n: self.n,
            time: self.time,
            state,
            derivative,
            relative: self.relative,
            absolute,
            history: self.history,
            previous,
            attempt: self.attempt,
            step: self.step,
            jacobian,
            count: self.count,
            answers,
        }
    }
}

// The same over lent figures.
fn bring_over_figures(n: usize, old: &[f64; OLD_FIGURES], figures: &mut Figures)
    ensures { (k : Head) → k.n ≡ n → figures.new ≡ figures_of (brought_over (old_session_of k old.now)) }
{
    let absolute = copied(n, old[ABSOLUTE_AT]);
    put(&old[..ABSOLUTE_AT], figures, TIME_AT);
    put(&absolute, figures, ABSOLUTE_AT);
    put(&old[figures::OLD_STATE_AT..OLD_FIGURES], figures, STATE_AT);
}

impl Head {
    // Fills the figures from those of the old layout; where a length is another, it tells so and writes nothing.
    pub fn bring_over(self, old: &[f64], figures: &mut [f64]) -> Option<()>
        ensures long { is_some result ≡ (eqb (length old.now) old_figures && eqb (length figures.old) FIGURES) }
        ensures brought { figures.new ≡ lent_bring_over (is_some result) self old.now figures.old }
    {
        let old = old.as_array()?;
        let figures = figures.as_mut_array()?;
        bring_over_figures(self.n, old, figures);
        Some(())
    }
}

// ---- the bare calls

#[tactic(auto, unfolding(crate::specs::Bare::exponential_tests, crate::specs::Tests::tested))]
fn test_exponential(size: usize, m: &[f64], lent: usize) -> Result<(), Refusal>
    ensures { result ≡ tested (exponential_tests size m.now lent) }
{
    if (1 <= size) & (size <= LARGEST) {
        if (m.len() == size * size) & (lent == size * size) {
            if evaluation::all_finite(m) {
                return Ok(());
            }
            return Err(Refusal::NotFinite);
        }
    }
    Err(Refusal::Places)
}

// The exponential of a matrix of size 1 to 20, into `out`, and how far it went.
pub fn exponential(size: usize, m: &[f64], out: &mut [f64]) -> Result<Answer, Refusal>
    ensures { bare result out.new ≡ exponential_call size m.now out.old }
{
    test_exponential(size, m, out.len())?;
    let mut a = [0.0; LARGEST * LARGEST];
    let end = size * size;
    put(m, &mut a, 0);
    let Some(reach) = matrix::matrix_exp(&mut a[..end], out, size) else {
        return Err(Refusal::Arithmetic);
    };
    Ok(Answer::Filled(reach.terms, reach.squarings))
}

#[tactic(auto, unfolding(crate::specs::Bare::phi_tests, crate::specs::Session::size_ok, crate::specs::Tests::tested))]
fn test_phi(
    n: usize,
    order: Order,
    scale_a: f64,
    a: &[f64],
    input: &[f64],
    lent: usize,
) -> Result<(), Refusal>
    ensures { result ≡ tested (phi_tests n (order_number order) scale_a a.now input.now lent) }
{
    if (1 <= n) & (n <= PLACES) {
        if (a.len() == n * n) & (input.len() == n) & (lent == n) {
            if float::finite(scale_a) & evaluation::all_finite(a) & evaluation::all_finite(input) {
                return Ok(());
            }
            return Err(Refusal::NotFinite);
        }
    }
    Err(Refusal::Places)
}

// The phi action of order 1 to 4 on n numbers, into `out`, and how far its exponential went.
pub fn phi_action(
    n: usize,
    order: usize,
    scale_a: f64,
    a: &[f64],
    input: &[f64],
    out: &mut [f64],
) -> Result<Answer, Refusal>
    ensures { bare result out.new ≡ phi_call n order scale_a a.now input.now out.old }
{
    let Ok(order) = Order::try_from(order) else {
        return Err(Refusal::Places);
    };
    test_phi(n, order, scale_a, a, input, out.len())?;
    let square = Square {
        n: Dimension::new(n),
        entries: a,
    };
    let Some(action) = square.phi_action(scale_a, order, places::vector(input, n)) else {
        return Err(Refusal::Arithmetic);
    };
    places::copy_out(action.v, out);
    Ok(Answer::Filled(action.tally.terms, action.tally.squarings))
}

fn test_norm(
    n: usize,
    relative: f64,
    absolute: [f64; PLACES],
    error: [f64; PLACES],
    state: [f64; PLACES],
    candidate: [f64; PLACES],
) -> Result<(), Refusal>
    ensures { result ≡ tested (norm_tests n relative absolute error state candidate) }
{
    if !((1 <= n)
        & (n <= PLACES)
        & places::clear(&absolute, n)
        & places::clear(&error, n)
        & places::clear(&state, n)
        & places::clear(&candidate, n))
    {
        return Err(Refusal::Places);
    }
    if !tolerances_ok(Dimension::new(n), relative, &absolute) {
        return Err(Refusal::Tolerance);
    }
    if !(evaluation::all_finite(&error)
        & evaluation::all_finite(&state)
        & evaluation::all_finite(&candidate))
    {
        return Err(Refusal::NotFinite);
    }
    Ok(())
}

// The error norm of n entries.
pub fn error_norm(
    n: usize,
    relative: f64,
    absolute: [f64; PLACES],
    error: [f64; PLACES],
    state: [f64; PLACES],
    candidate: [f64; PLACES],
) -> Result<Answer, Refusal>
    ensures { result ≡ norm_call n relative absolute error state candidate }
{
    test_norm(n, relative, absolute, error, state, candidate)?;
    let n = Dimension::new(n);
    Ok(Answer::Norm(engine::scaled_error_norm(n, relative, &absolute, &state, &candidate, &error)))
}
