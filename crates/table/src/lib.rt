// The sonde's own right-hand side: a table of 16-byte records, the derivative that it gives, and whole steps of a session by it.
#![tactic(auto)]

ghost use Rattle.std.specs.Prelude.{◌≡◌, true, ◌&&◌, eqb, ◌≤◌, ◌<◌, false, MatchOption, length, replicate, Ok, Err, MatchResult};
ghost use Rattle.float.specs.Arith.{zero+};
ghost use Rattle.evaluation.specs.Sizes.{places};
ghost use Rattle.session.specs.declared.Session.{Session};
ghost use Rattle.session.specs.Tests.{tested};
ghost use Rattle.session.specs.Values.{is_refused};
ghost use Rattle.session.specs.Calls.{outcome, tell, drop_call};
ghost use Rattle.session.specs.Figures.{FIGURES, session_of};
ghost use Rattle.session.specs.Lent.{told_by, remains, lent_call, lent_open};
ghost use Rattle.table.specs.Table.{record_ok, table_ok, records, value, derivative};
ghost use Rattle.table.specs.Whole.{open_by_table, whole_tests, replied, answers, accepted, stepped, keeping, whole_step};

mod kind;
mod record;

use evaluation::PLACES;
use kind::Kind;
use methods::Dimension;
pub use record::RECORD;
use record::Record;
use session::{
    Answer, Figures, Head, History, JACOBIAN, Left, Phase, Refusal, STEP_AT, TIME_AT, Wish,
};

// The most records that a table holds.
pub const RECORDS: usize = 256;

// ---- a table

// Whether these bytes are a well-formed table for n components.
fn table_ok(n: usize, bytes: &[u8]) -> bool
    ensures { result ≡ table_ok n bytes.now }
{
    let records = bytes.len() / RECORD;
    if (bytes.len() % RECORD == 0) & (records <= RECORDS) {
        return (0..records).all(|r| Record::new(bytes, r).ok(n));
    }
    false
}

// A well-formed table for n components, over bytes that are lent.
#[derive(Clone, Copy)]
pub struct Table<'a> {
    pub n: Dimension,
    pub bytes: &'a [u8],
    ghost small: { n ≤ places },
    ghost well_formed: { table_ok n bytes.now ≡ true },
}

impl<'a> Table<'a> {
    // These bytes as a table, if they are well-formed.
    pub fn new(n: Dimension, bytes: &'a [u8]) -> Option<Table<'a>>
        ensures { MatchOption result (table_ok n bytes.now ≡ false) (λ table. (table.n ≡ n) × (table.bytes.now ≡ bytes.now)) }
    {
        if table_ok(n.get(), bytes) {
            return Some(Table { n, bytes });
        }
        None
    }

    fn record(&self, r: usize) -> Record<'a>
        requires { r < records self.now.bytes.now }
        ensures same { (result.bytes.now ≡ self.now.bytes.now) × (result.r ≡ r) }
        ensures ok { record_ok self.now.n result.bytes.now result.r ≡ true }
    {
        Record::new(self.bytes, r)
    }

    // What record r adds to its target.
    fn value(&self, r: usize, time: f64, u: &[f64]) -> f64
        requires { (r < records self.now.bytes.now) × (self.now.n ≤ length u.now) }
        ensures { result ≡ value self.now.bytes.now «time» u.now r }
    {
        let record = self.record(r);
        let c = record.coefficient();
        match record.kind().unwrap() {
            Kind::Constant => c,
            Kind::Linear => c * u[record.first()],
            Kind::Product => c * u[record.first()] * u[record.second()],
            Kind::Timed => c * u[record.first()] * time,
        }
    }

    // The derivative at a time and a state: each record adds to its target, in record order.
    pub fn derivative(&self, time: f64, u: &[f64], sums: &mut [f64; PLACES])
        requires { self.now.n ≤ length u.now }
        ensures { sums.new ≡ derivative self.now.n self.now.bytes.now «time» u.now }
    {
        *sums = [0.0; PLACES];
        for r in 0..self.bytes.len() / RECORD {
            let i = self.record(r).target();
            sums[i] += self.value(r, time, u);
        }
    }
}

// ---- a run by a table

fn open_over(
    scheme: u8,
    n: usize,
    time: f64,
    relative: f64,
    absolute: &[f64; PLACES],
    state: &[f64; PLACES],
    bytes: &[u8],
    figures: &mut Figures,
) -> Left
    ensures { told_by result figures.new ≡ open_by_table (record {
      scheme = scheme;
      n = n;
      time = «time»;
      state = state.now;
      derivative = replicate places zero+;
      relative = «relative»;
      absolute = absolute.now;
      history = History.Missing;
      previous = replicate places zero+;
    }) bytes.now }
{
    let still = [0.0; PLACES];
    let none = History::Missing;
    let first = session::open_over(
        scheme, n, none, time, relative, absolute, state, &still, &still, figures,
    );
    if first.answer.is_err() {
        return first;
    }
    let Some(table) = Table::new(Dimension::new(n), bytes) else {
        return session::refused(session::put_nothing(figures), Refusal::Table);
    };
    let mut slope = still;
    table.derivative(time, state, &mut slope);
    session::open_over(
        scheme, n, none, time, relative, absolute, state, &slope, &still, figures,
    )
}

// Opens a run with the table's derivative, without a history: it rests, or is refused as open refuses it with a derivative of +0.0, then by 8, then
// by 3 where the table's derivative is not finite.
pub fn open_by_table(
    scheme: u8,
    n: usize,
    time: f64,
    state: &[f64],
    relative: f64,
    absolute: &[f64],
    bytes: &[u8],
    figures: &mut [f64],
) -> Left
    ensures { remains result figures.new ≡ lent_open
        (eqb (length figures.old) FIGURES && eqb (length absolute.now) places && eqb (length state.now) places)
        figures.old (open_by_table (record {
          scheme = scheme;
          n = n;
          time = «time»;
          state = state.now;
          derivative = replicate places zero+;
          relative = «relative»;
          absolute = absolute.now;
          history = History.Missing;
          previous = replicate places zero+;
        }) bytes.now) }
{
    let (Some(absolute), Some(state)) = (absolute.as_array(), state.as_array()) else {
        return session::refused(session::no_head(), Refusal::Places);
    };
    let Some(figures) = figures.as_mut_array() else {
        return session::refused(session::no_head(), Refusal::Places);
    };
    open_over(scheme, n, time, relative, absolute, state, bytes, figures)
}

// ---- a whole step

// What is tested before it: the session at rest, then the table, then the step.
fn test_whole<'a>(
    k: Head,
    figures: &Figures,
    bytes: &'a [u8],
    step: f64,
) -> Result<Table<'a>, Refusal>
    ensures { MatchResult result
        (λ table. (tested (whole_tests (session_of k figures.now) bytes.now «step») ≡ Ok tt) × (table.n ≡ k.n) × (table.bytes.now ≡ bytes.now))
        (λ refusal. tested (whole_tests (session_of k figures.now) bytes.now «step») ≡ Err refusal) }
{
    session::test_session(Some(Phase::Rest), k, figures)?;
    let Some(table) = Table::new(Dimension::new(k.n), bytes) else {
        return Err(Refusal::Table);
    };
    if !session::step_ok(step) {
        return Err(Refusal::Step);
    }
    Ok(table)
}

// Parts of a whole step, into room for the states asked about and the candidate, and into one for the derivatives there.
// Kept: the derivatives are handed out through lent room, where an array could be given back: each array of sixteen in a whole step stands on the stack below the deepest call.
impl Table<'_> {
    // Answers the question, if one is asked, at its place: the derivative at its state and time.
    #[tactic(auto, unfolding(crate::specs::Whole::replied, crate::specs::Whole::answer_to))]
    fn reply(
        &self,
        left: &mut Left,
        figures: &mut Figures,
        room: &mut [f64],
        slope: &mut [f64; PLACES],
    )
        requires { self.now.n ≤ length room.old }
        ensures { outcome (told_by left.new figures.new) room.new
            ≡ replied self.now.n self.now.bytes.now (outcome (told_by left.old figures.old) room.old) }
    {
        let Ok(Answer::Ask(place, time)) = left.answer else {
            return;
        };
        self.derivative(time, room, slope);
        *left = session::supply_over(left.head, figures, place as usize, slope, room);
    }

    // Answers as many questions as the attempt wants answers.
    fn reply_all(
        &self,
        wanted: usize,
        left: &mut Left,
        figures: &mut Figures,
        room: &mut [f64],
        slope: &mut [f64; PLACES],
    )
        requires { self.now.n ≤ length room.old }
        ensures { outcome (told_by left.new figures.new) room.new
            ≡ answers self.now.n self.now.bytes.now wanted (outcome (told_by left.old figures.old) room.old) }
    {
        for _ in 0..wanted {
            self.reply(left, figures, room, slope);
        }
    }

    // Accepts the candidate, if there is one, whatever its norm, with the derivative there.
    #[tactic(auto, unfolding(crate::specs::Whole::accepted, crate::specs::Whole::accept_after, crate::specs::Whole::derivative_there, session::specs::Figures::session_of))]
    fn accept(
        &self,
        left: &mut Left,
        figures: &mut Figures,
        room: &[f64],
        slope: &mut [f64; PLACES],
    )
        requires { self.now.n ≤ length room.now }
        ensures { told_by left.new figures.new
            ≡ accepted self.now.n self.now.bytes.now (outcome (told_by left.old figures.old) room.now) }
    {
        let Ok(Answer::Ready(_, _, _, _)) = left.answer else {
            return;
        };
        let arrival = figures[TIME_AT] + figures[STEP_AT];
        self.derivative(arrival, room, slope);
        *left = session::accept_over(left.head, figures, slope);
    }

    // Begins with a differenced Jacobian, answers, accepts.
    fn step(&self, k: Head, figures: &mut Figures, step: f64) -> Left
        requires { k.n ≡ self.now.n }
        ensures { told_by result figures.new ≡ stepped (session_of k figures.old) self.now.bytes.now «step» }
    {
        let mut room = [0.0; PLACES];
        let room = &mut room[..self.n.get()];
        let mut slope = [0.0; PLACES];
        let wish = Wish::Difference;
        let wanted = session::wanted(k.scheme, self.n, Some(wish));
        let mut left = session::begin_over(k, figures, step, wish, &[0.0; JACOBIAN], room);
        self.reply_all(wanted, &mut left, figures, room, &mut slope);
        self.accept(&mut left, figures, room, &mut slope);
        left
    }
}

// Where the step was refused its attempt is dropped, so that the session is as it came.
fn keep(left: &mut Left, figures: &mut Figures)
    ensures { (s : Session) → (is_refused left.old.answer ≡ true → drop_call (session_of left.old.head figures.old) ≡ tell Answer.Resting s)
        → told_by left.new figures.new ≡ keeping s (told_by left.old figures.old) }
{
    if left.answer.is_err() {
        left.head = session::drop_over(left.head, figures).head;
    }
}

// A whole step of a session at rest, over its lent figures: every question is answered by the table, and the candidate is accepted. Refused, the
// session is as it came.
pub fn whole_step(k: Head, figures: &mut [f64], bytes: &[u8], step: f64) -> Left
    ensures { remains result figures.new ≡ lent_call (eqb (length figures.old) FIGURES) k figures.old (λ s. whole_step s bytes.now «step») }
{
    let Some(figures) = figures.as_mut_array() else {
        return session::refused(k, Refusal::Places);
    };
    let table = match test_whole(k, figures, bytes, step) {
        Ok(table) => table,
        Err(refusal) => return session::refused(k, refusal),
    };
    let mut left = table.step(k, figures, step);
    keep(&mut left, figures);
    left
}
