// The calls for programs in other languages. A session crosses as two lent slices, its image: `numbers` and `figures` (crate image).
//
// Each function tests every length itself and requires nothing. It returns 0 where the call was made, and 1 where a slice has another length
// than its own; then nothing is touched. What the call tells is left in `words`, 5 of them (outcome, refusal, three counts), and `told`, one
// figure: Ask's time, Ready's error norm, the first step, the norm, otherwise +0.0. Outcomes: 0 Refused, 1 Ask, 2 Ready, 3 Resting,
// 4 First step, 5 Filled, 6 Norm. The counts are, of Ask, the question's place, 0 and 0; of Ready, right-hand sides, Jacobians and matrix
// products; of Filled, terms, squarings and 0; otherwise 0.
//
// A call works on the figures that it is lent, copies no session, and writes only what changes. A refused call leaves numbers, figures and
// output as they were. A refused open overwrites numbers and figures, whatever they held: they become those of the session that a refused open
// gives, which any call refuses. Bringing a session over tells nothing but its code.
#![tactic(auto)]

ghost use Rattle.std.specs.Prelude.{◌≡◌, true, cond, ◌&&◌, eqb, length, replicate, Some, None};
ghost use Rattle.float.specs.Arith.{zero+};
ghost use Rattle.image.specs.Image.{VECTOR, MATRIX, NUMBERS, scheme_of, history_of, wish_of, head_in, packed};
ghost use Rattle.library.specs.Library.{room, slices, heard, fitting, vectors, Hears, Said, Open, BringOver, Call, CallLent, Ask, Bared, BaredLent};
ghost use Rattle.session.specs.Calls.{open_call, begin_call, supply_call, accept_call, drop_call, first_step_call};
ghost use Rattle.session.specs.Bare.{exponential_call, phi_call, norm_call};
ghost use Rattle.session.specs.Values.{is_refused};
ghost use Rattle.table.specs.Whole.{open_by_table, whole_step};

use session::{Answer, Head, History, Left, Refusal};

// ---- lengths

// Whether the slices of a reply have their lengths.
#[tactic(auto, unfolding(crate::specs::Library::heard))]
fn hearing(words: &[u64], told: &[f64]) -> bool
    ensures { result ≡ heard (room words.now told.now) }
{
    (words.len() == image::WORDS) & (told.len() == 1)
}

// Whether those of a session and of its reply have.
// Kept: a struct of the four slices would be made by each exported function, and taken apart again for each call.
#[tactic(auto, unfolding(crate::specs::Library::fitting))]
fn lent(numbers: &[u64], figures: &[f64], words: &[u64], told: &[f64]) -> bool
    ensures { result ≡ fitting (slices numbers.now figures.now words.now told.now) }
{
    (numbers.len() == image::NUMBERS) & (figures.len() == image::FIGURES) & hearing(words, told)
}

// The head that `numbers` hold, where `fits` holds and the slices have their lengths.
// Kept: `fits` is what three of its five calls test besides; as a pattern of its own, `(true, Some(k))` of a pair, it is no plainer at each.
fn held(fits: bool, numbers: &[u64], figures: &[f64], words: &[u64], told: &[f64]) -> Option<Head>
    ensures { result ≡ cond (fits && fitting (slices numbers.now figures.now words.now told.now)) (Some (head_in numbers.now)) None }
{
    if fits & lent(numbers, figures, words, told) {
        Some(image::head_in(numbers.as_array().unwrap()))
    } else {
        None
    }
}

// Whether four vectors have their lengths.
#[tactic(auto, unfolding(crate::specs::Library::vectors))]
fn four(w: &[f64], x: &[f64], y: &[f64], z: &[f64]) -> bool
    ensures { result ≡ vectors w.now x.now y.now z.now }
{
    (w.len() == image::VECTOR)
        & (x.len() == image::VECTOR)
        & (y.len() == image::VECTOR)
        & (z.len() == image::VECTOR)
}

// ---- what is told

// Leaves what is told of an answer.
fn say(answer: Result<Answer, Refusal>, words: &mut [u64], told: &mut [f64])
    requires { Hears (room words.old told.old) }
    ensures { Said answer (room words.new told.new) }
{
    let r = image::reply_of(answer);
    let [first, second, third] = r.counts;
    words.copy_from_slice(&[
        u8::from(r.outcome) as u64,
        r.refusal as u64,
        first as u64,
        second as u64,
        third as u64,
    ]);
    told[0] = r.figure;
}

// What a call told, and the numbers of the session that it left, unless it was refused.
#[tactic(auto, unfolding(session::specs::Values::is_refused, session::specs::Values::values_of, session::specs::Values::figured))]
fn give_back(left: Left, numbers: &mut [u64], words: &mut [u64], told: &mut [f64])
    requires { (length numbers.old ≡ NUMBERS) × Hears (room words.old told.old) }
    ensures { (numbers.new ≡ cond (is_refused left.answer) numbers.old (packed left.head))
        × Said left.answer (room words.new told.new) }
{
    say(left.answer, words, told);
    if left.answer.is_ok() {
        numbers.copy_from_slice(&image::numbers_of(left.head));
    }
}

// ---- the calls
// Kept: numbers for a scheme, a history, a wish and an order, and slices one by one, as the C interface has them.

// Opens a run. `held` is 0 where there is no history; `previous` is then +0.0 throughout.
#[unsafe(no_mangle)]
pub extern "C" fn vunchrem_open(
    scheme: u64,
    n: u64,
    held: u64,
    time: f64,
    relative: f64,
    absolute: &[f64],
    state: &[f64],
    derivative: &[f64],
    previous: &[f64],
    numbers: &mut [u64],
    figures: &mut [f64],
    words: &mut [u64],
    told: &mut [f64],
) -> u32
    ensures { Open (vectors absolute.now state.now derivative.now previous.now)
        (open_call (record {
          scheme = scheme_of scheme;
          n = n;
          time = «time»;
          state = state.now;
          derivative = derivative.now;
          relative = «relative»;
          absolute = absolute.now;
          history = history_of held;
          previous = previous.now;
        })) result
        (slices numbers.old figures.old words.old told.old)
        (slices numbers.new figures.new words.new told.new) }
{
    if !(four(absolute, state, derivative, previous) & lent(numbers, figures, words, told)) {
        return 1;
    }
    let left = Head::open(
        image::scheme_of(scheme),
        n as usize,
        time,
        state,
        derivative,
        relative,
        absolute,
        image::history_of(held),
        previous,
        figures,
    );
    say(left.answer, words, told);
    numbers.copy_from_slice(&image::numbers_of(left.head));
    0
}

// Opens a run with the table's derivative, without a history: refused as an open with a derivative of +0.0, then by 8, then by 3 where the table's
// derivative is not finite.
#[unsafe(no_mangle)]
pub extern "C" fn vunchrem_open_by_table(
    scheme: u64,
    n: u64,
    time: f64,
    relative: f64,
    absolute: &[f64],
    state: &[f64],
    table: &[u8],
    numbers: &mut [u64],
    figures: &mut [f64],
    words: &mut [u64],
    told: &mut [f64],
) -> u32
    ensures { Open (eqb (length absolute.now) VECTOR && eqb (length state.now) VECTOR)
        (open_by_table (record {
          scheme = scheme_of scheme;
          n = n;
          time = «time»;
          state = state.now;
          derivative = replicate VECTOR zero+;
          relative = «relative»;
          absolute = absolute.now;
          history = History.Missing;
          previous = replicate VECTOR zero+;
        }) table.now) result
        (slices numbers.old figures.old words.old told.old)
        (slices numbers.new figures.new words.new told.new) }
{
    let fits = (absolute.len() == image::VECTOR) & (state.len() == image::VECTOR);
    if !(fits & lent(numbers, figures, words, told)) {
        return 1;
    }
    let left = table::open_by_table(
        image::scheme_of(scheme),
        n as usize,
        time,
        state,
        relative,
        absolute,
        table,
        figures,
    );
    say(left.answer, words, told);
    numbers.copy_from_slice(&image::numbers_of(left.head));
    0
}

// Fills the figures from those that a session of the older layout had, 628 of them: its tolerance is copied n times. Its numbers stay
// as they are, and nothing is judged: the next call judges the session.
#[unsafe(no_mangle)]
pub extern "C" fn vunchrem_bring_over(numbers: &[u64], old: &[f64], figures: &mut [f64]) -> u32
    ensures { BringOver result numbers.now old.now figures.old figures.new }
{
    let Some(numbers) = numbers.as_array() else {
        return 1;
    };
    if image::head_in(numbers).bring_over(old, figures).is_some() {
        0
    } else {
        1
    }
}

// Begins an attempt: `wish` 0 differences, and `jacobian` is then +0.0 throughout. The first question, or the candidate, fills `out`.
#[unsafe(no_mangle)]
pub extern "C" fn vunchrem_begin(
    numbers: &mut [u64],
    figures: &mut [f64],
    step: f64,
    wish: u64,
    jacobian: &[f64],
    out: &mut [f64],
    words: &mut [u64],
    told: &mut [f64],
) -> u32
    ensures { CallLent (eqb (length jacobian.now) MATRIX)
        (λ s out. begin_call s «step» (wish_of wish) jacobian.now out) result
        (slices numbers.old figures.old words.old told.old)
        (slices numbers.new figures.new words.new told.new)
        out.entry.now out.exit.now }
{
    let fits = jacobian.len() == image::MATRIX;
    let Some(k) = held(fits, numbers, figures, words, told) else {
        return 1;
    };
    let left = k.begin(figures, step, image::wish_of(wish), jacobian, out);
    give_back(left, numbers, words, told);
    0
}

// Supplies the derivative that the question at `place` asked for: the next question, or the candidate, fills `out`.
#[unsafe(no_mangle)]
pub extern "C" fn vunchrem_supply(
    numbers: &mut [u64],
    figures: &mut [f64],
    place: u64,
    answer: &[f64],
    out: &mut [f64],
    words: &mut [u64],
    told: &mut [f64],
) -> u32
    ensures { CallLent (eqb (length answer.now) VECTOR)
        (λ s out. supply_call s place answer.now out) result
        (slices numbers.old figures.old words.old told.old)
        (slices numbers.new figures.new words.new told.new)
        out.entry.now out.exit.now }
{
    let fits = answer.len() == image::VECTOR;
    let Some(k) = held(fits, numbers, figures, words, told) else {
        return 1;
    };
    let left = k.supply(figures, place as usize, answer, out);
    give_back(left, numbers, words, told);
    0
}

// Accepts the candidate, with the derivative there.
#[unsafe(no_mangle)]
pub extern "C" fn vunchrem_accept(
    numbers: &mut [u64],
    figures: &mut [f64],
    derivative: &[f64],
    words: &mut [u64],
    told: &mut [f64],
) -> u32
    ensures { Call (eqb (length derivative.now) VECTOR)
        (λ s. accept_call s derivative.now) result
        (slices numbers.old figures.old words.old told.old)
        (slices numbers.new figures.new words.new told.new) }
{
    let fits = derivative.len() == image::VECTOR;
    let Some(k) = held(fits, numbers, figures, words, told) else {
        return 1;
    };
    let left = k.accept(figures, derivative);
    give_back(left, numbers, words, told);
    0
}

// Drops the attempt, if there is one.
#[unsafe(no_mangle)]
pub extern "C" fn vunchrem_drop(
    numbers: &mut [u64],
    figures: &mut [f64],
    words: &mut [u64],
    told: &mut [f64],
) -> u32
    ensures { Call true drop_call result
        (slices numbers.old figures.old words.old told.old)
        (slices numbers.new figures.new words.new told.new) }
{
    let Some(k) = held(true, numbers, figures, words, told) else {
        return 1;
    };
    let left = k.drop(figures);
    give_back(left, numbers, words, told);
    0
}

// A whole step by the table, from rest to rest: every question is answered by it, and the candidate is accepted whatever its norm.
#[unsafe(no_mangle)]
pub extern "C" fn vunchrem_whole_step(
    step: f64,
    table: &[u8],
    numbers: &mut [u64],
    figures: &mut [f64],
    words: &mut [u64],
    told: &mut [f64],
) -> u32
    ensures { Call true (λ s. whole_step s table.now «step») result
        (slices numbers.old figures.old words.old told.old)
        (slices numbers.new figures.new words.new told.new) }
{
    let Some(k) = held(true, numbers, figures, words, told) else {
        return 1;
    };
    let left = table::whole_step(k, figures, table, step);
    give_back(left, numbers, words, told);
    0
}

// The first step that the run's figures suggest, at most `largest`. The session stays as it is.
#[unsafe(no_mangle)]
pub extern "C" fn vunchrem_first_step(
    numbers: &[u64],
    figures: &[f64],
    largest: f64,
    words: &mut [u64],
    told: &mut [f64],
) -> u32
    ensures { Ask true (λ s. (first_step_call s «largest»).answer) result
        (slices numbers.now figures.now words.old told.old)
        (room words.new told.new) }
{
    let Some(k) = held(true, numbers, figures, words, told) else {
        return 1;
    };
    say(k.first_step(figures, largest), words, told);
    0
}

// ---- the bare calls

// The exponential of a matrix of size 1 to 20, into `out`.
#[unsafe(no_mangle)]
pub extern "C" fn vunchrem_exponential(
    size: u64,
    m: &[f64],
    out: &mut [f64],
    words: &mut [u64],
    told: &mut [f64],
) -> u32
    ensures { BaredLent (λ out. exponential_call size m.now out) result
        (room words.old told.old) (room words.new told.new)
        out.entry.now out.exit.now }
{
    if !hearing(words, told) {
        return 1;
    }
    say(session::exponential(size as usize, m, out), words, told);
    0
}

// The phi action of order 1 to 4 of the matrix `a`, times `scale_a`, on n numbers, into `out`.
#[unsafe(no_mangle)]
pub extern "C" fn vunchrem_phi_action(
    n: u64,
    order: u64,
    scale_a: f64,
    a: &[f64],
    input: &[f64],
    out: &mut [f64],
    words: &mut [u64],
    told: &mut [f64],
) -> u32
    ensures { BaredLent (λ out. phi_call n order scale_a a.now input.now out) result
        (room words.old told.old) (room words.new told.new)
        out.entry.now out.exit.now }
{
    if !hearing(words, told) {
        return 1;
    }
    let answer = session::phi_action(n as usize, order as usize, scale_a, a, input, out);
    say(answer, words, told);
    0
}

// The error norm of n entries.
#[unsafe(no_mangle)]
pub extern "C" fn vunchrem_error_norm(
    n: u64,
    relative: f64,
    absolute: &[f64],
    error: &[f64],
    state: &[f64],
    candidate: &[f64],
    words: &mut [u64],
    told: &mut [f64],
) -> u32
    ensures { Bared (vectors absolute.now error.now state.now candidate.now)
        (norm_call n «relative» absolute.now error.now state.now candidate.now) result
        (room words.old told.old) (room words.new told.new) }
{
    if !(four(absolute, error, state, candidate) & hearing(words, told)) {
        return 1;
    }
    let answer = session::error_norm(
        n as usize,
        relative,
        *absolute.as_array().unwrap(),
        *error.as_array().unwrap(),
        *state.as_array().unwrap(),
        *candidate.as_array().unwrap(),
    );
    say(answer, words, told);
    0
}
