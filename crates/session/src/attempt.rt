// The attempt of a session, as far as its answers go, and what is told of it.
ghost use Rattle.std.specs.Prelude.{◌≡◌, ◌*◌, ◌≤◌, length, MatchOption};
ghost use Rattle.evaluation.specs.Sizes.{places};
ghost use Rattle.session.specs.Session.{Sound};
ghost use Rattle.session.specs.Figures.{session_of};

use crate::figures::part;
use crate::{
    ABSOLUTE_AT, ANSWERS_AT, Answer, DERIVATIVE_AT, Figures, Head, History, JACOBIAN, JACOBIAN_AT,
    PREVIOUS_AT, RELATIVE_AT, STATE_AT, STEP_AT, TIME_AT, Wish, places, wanted,
};
use engine::Columns;
use evaluation::PLACES;
use methods::{Dimension, EXPRB32, EXPRB43, Point, Replay, StepResult, Work};

// The attempt of a session that is not refused.
#[derive(Clone, Copy)]
pub struct Attempt<'a> {
    pub head: Head,
    pub figures: &'a Figures,
    ghost sound: { Sound (session_of head figures.now) },
}

impl Attempt<'_> {
    ghost use Rattle.methods.specs.Step.{progress as reached};
    ghost use Rattle.session.specs.declared.Session.{Session};
    ghost use Rattle.session.specs.declared.Refusal.{Refusal};
    ghost use Rattle.session.specs.Session.{point_of, stepped, differencing, progress};
    ghost use Rattle.session.specs.Calls.{outcome, tell, refuse_lent, shown, ready_of};
    ghost use Rattle.session.specs.Lent.{tried, column_asked, stepped_from, supplied_from};

    // Kept: as that of a Lent, by a ghost field of its own; a trait for the line would have to say both facts.
    #[tactic(auto, unfolding(crate::specs::Figures::session_of))]
    fn n(&self) -> Dimension
        ensures { result ≡ self.now.head.n }
    {
        Dimension::new(self.head.n)
    }

    // What the schemes start from.
    #[tactic(auto, unfolding(crate::specs::Session::point_of, crate::specs::Session::previous_of, crate::specs::Figures::session_of))]
    fn point_of(&self) -> Point
        ensures { result ≡ point_of (tried self.now) }
    {
        let figures = self.figures;
        let previous = match self.head.history {
            History::Missing => None,
            History::Held => Some(*part(figures, PREVIOUS_AT)),
        };
        Point {
            n: self.n(),
            time: figures[TIME_AT],
            step: figures[STEP_AT],
            state: *part(figures, STATE_AT),
            f0: *part(figures, DERIVATIVE_AT),
            previous,
        }
    }

    // The step with a Jacobian, over the answers from the one at `first` on.
    #[tactic(auto, unfolding(crate::specs::Session::point_of, crate::specs::Figures::session_of))]
    fn stepped(&self, jacobian: &[f64], first: usize) -> Option<StepResult>
        requires jacobian_len { length jacobian.now ≡ self.now.head.n * self.now.head.n }
        requires first_bound { (first ≤ self.now.head.count) × (first ≤ places) }
        ensures { reached result ≡ stepped (tried self.now) jacobian.now first }
    {
        let replay = Replay {
            point: self.point_of(),
            jacobian,
            answers: part(self.figures, ANSWERS_AT),
            first,
            count: self.head.count - first,
        };
        schemes::perform_step(self.head.scheme, &replay)
    }

    // What the columns of the differenced Jacobian are worked out from.
    #[tactic(auto, unfolding(crate::specs::Figures::session_of))]
    fn columns(&self) -> Columns<'_>
        ensures { (result.n ≡ self.now.head.n) × (result.state.now ≡ (tried self.now).state) × (result.f0.now ≡ (tried self.now).derivative)
            × (result.answers.now ≡ (tried self.now).answers) }
    {
        Columns {
            n: self.n(),
            state: part(self.figures, STATE_AT),
            f0: part(self.figures, DERIVATIVE_AT),
            answers: part(self.figures, ANSWERS_AT),
        }
    }

    // All columns are answered: the step with the Jacobian that they give.
    #[tactic(auto, unfolding(crate::specs::Figures::session_of))]
    fn stepped_from(&self, a: &mut [f64]) -> Option<StepResult>
        requires n_le_count { self.now.head.n ≤ self.now.head.count }
        requires a_len { length a.old ≡ self.now.head.n * self.now.head.n }
        ensures { reached result ≡ stepped_from (tried self.now) }
    {
        self.columns().jacobian_into(a);
        self.stepped(a, self.head.n)
    }

    // The next column's question; it carries nothing else.
    #[tactic(auto, unfolding(crate::specs::Session::question, methods::specs::Step::progress, crate::specs::Figures::session_of))]
    fn column(&self) -> Option<StepResult>
        ensures { reached result ≡ column_asked (tried self.now) }
    {
        let x = engine::perturbed(part(self.figures, STATE_AT), self.head.count, self.n());
        if evaluation::all_finite(&x) {
            return Some(StepResult::Question(x, self.figures[TIME_AT]));
        }
        None
    }

    #[tactic(auto, unfolding(crate::specs::Session::differencing, methods::specs::Step::progress, crate::specs::Figures::session_of))]
    fn differencing(&self) -> Option<StepResult>
        ensures { reached result ≡ differencing (tried self.now) }
    {
        let n = self.head.n;
        if self.head.count < n {
            if self.columns().all_ok(self.head.count) {
                return self.column();
            }
            return None;
        }
        if self.columns().all_ok(n) {
            let size = n * n;
            let mut a = [0.0; JACOBIAN];
            return self.stepped_from(&mut a[..size]);
        }
        None
    }

    #[tactic(auto, unfolding(crate::specs::Figures::session_of))]
    fn supplied(&self) -> Option<StepResult>
        ensures { reached result ≡ supplied_from (tried self.now) }
    {
        let size = self.head.n * self.head.n;
        let jacobian: &[f64; JACOBIAN] = part(self.figures, JACOBIAN_AT);
        self.stepped(&jacobian[..size], 0)
    }

    // Where the attempt stands; none where it is refused by 6.
    #[tactic(auto, unfolding(crate::specs::Session::progress, crate::specs::Session::progress_of, methods::specs::Step::progress, crate::specs::Figures::session_of))]
    pub fn run_pass(&self) -> Option<StepResult>
        ensures { reached result ≡ progress (tried self.now) }
    {
        match self.head.attempt? {
            Wish::Given => self.supplied(),
            Wish::Difference => self.differencing(),
        }
    }

    // ---- what is told

    #[tactic(auto, unfolding(crate::specs::Calls::has_error, crate::specs::Calls::ready_of, crate::specs::Figures::session_of))]
    fn ready_of(&self, candidate: &[f64; PLACES], error: &[f64; PLACES], work: Work) -> Answer
        ensures { result ≡ ready_of (tried self.now) candidate.now error.now work }
    {
        let k = self.head;
        let figures = self.figures;
        let rhs = wanted(k.scheme, self.n(), k.attempt);
        if (k.scheme == EXPRB32) | (k.scheme == EXPRB43) {
            let norm = engine::scaled_error_norm(
                self.n(),
                figures[RELATIVE_AT],
                part(figures, ABSOLUTE_AT),
                part(figures, STATE_AT),
                candidate,
                error,
            );
            return Answer::Ready(norm, rhs as u32, 1, work.products);
        }
        Answer::Ready(0.0, rhs as u32, 1, work.products)
    }

    // The question or the candidate fills the output, and the answer is told; none where the arithmetic is not admitted.
    pub fn show(&self, out: &mut [f64]) -> Option<Answer>
        requires { length out.old ≡ self.now.head.n }
        ensures { (old : Session) → MatchOption result
            (refuse_lent old out.new Refusal.Arithmetic ≡ shown old (tried self.now) out.old (progress (tried self.now)))
            (λ answer. outcome (tell answer (tried self.now)) out.new ≡ shown old (tried self.now) out.old (progress (tried self.now))) }
    {
        match self.run_pass()? {
            StepResult::Question(x, time) => {
                places::copy_out(x, out);
                Some(Answer::Ask(self.head.count as u32, time))
            }
            StepResult::Done(candidate, error, _, work) => {
                places::copy_out(candidate, out);
                Some(self.ready_of(&candidate, &error, work))
            }
        }
    }
}
