// A session over figures that are lent, and what it is tested for.
ghost use Rattle.std.specs.Prelude.{◌≡◌, true, ◌≤◌};
ghost use Rattle.evaluation.specs.Sizes.{places};

use crate::figures::part;
use crate::{
    ABSOLUTE_AT, ANSWERS_AT, DERIVATIVE_AT, Figures, Head, JACOBIAN, JACOBIAN_AT, PREVIOUS_AT,
    Phase, RELATIVE_AT, SCHEMES, STATE_AT, STEP_AT, TIME_AT, admits, history_ok, names, places,
    run_clear, run_finite, step_clear, tolerances_ok, used_jacobian, wanted,
};
use evaluation::PLACES;
use methods::Dimension;

// A session of at most 16 components, over figures that are lent.
#[derive(Clone, Copy)]
pub struct Lent<'a> {
    pub head: Head,
    pub figures: &'a Figures,
    ghost small: { head.n ≤ places },
}

impl Lent<'_> {
    ghost use Rattle.session.specs.Session.{run_places, attempt_places, good1, good2, phase_of, good7, good9, good4, good3};
    ghost use Rattle.session.specs.Lent.{lent};

    fn n(&self) -> Dimension
        ensures { result ≡ self.now.head.n }
    {
        Dimension::new(self.head.n)
    }

    // 1, of the run.
    #[tactic(auto, unfolding(crate::specs::Session::run_places, crate::specs::Figures::session_of))]
    pub fn run_places(&self) -> bool
        ensures { result ≡ run_places (lent self.now) }
    {
        run_clear(
            self.head.n,
            self.head.history,
            part(self.figures, ABSOLUTE_AT),
            part(self.figures, STATE_AT),
            part(self.figures, DERIVATIVE_AT),
            part(self.figures, PREVIOUS_AT),
        )
    }

    // 1, of the attempt.
    #[tactic(auto, unfolding(crate::specs::Session::attempt_places, crate::specs::Figures::session_of))]
    pub fn attempt_places(&self) -> bool
        ensures { result ≡ attempt_places (lent self.now) }
    {
        step_clear(self.head.attempt, self.figures[STEP_AT])
            & places::clear(
                part::<JACOBIAN>(self.figures, JACOBIAN_AT),
                used_jacobian(self.head.attempt, self.n()),
            )
            & places::clear_answers(part(self.figures, ANSWERS_AT), self.head.count, self.head.n)
    }

    // 2: the scheme, its history, and no more answers than are asked for.
    #[tactic(auto, unfolding(crate::specs::Session::good2, crate::specs::Figures::session_of))]
    pub fn good2(&self) -> bool
        ensures { result ≡ good2 (lent self.now) }
    {
        let k = self.head;
        (k.scheme < SCHEMES)
            & history_ok(k.history, k.scheme)
            & (k.count <= wanted(k.scheme, self.n(), k.attempt))
    }

    // The place of the open question is the number of answers so far.
    #[tactic(auto, unfolding(crate::specs::Session::phase_at, crate::specs::Session::phase_of, crate::specs::Figures::session_of))]
    fn phase_of(&self) -> Phase
        ensures { result ≡ phase_of (lent self.now) }
    {
        let k = self.head;
        let Some(_) = k.attempt else {
            return Phase::Rest;
        };
        if k.count < wanted(k.scheme, self.n(), k.attempt) {
            Phase::Asking(k.count)
        } else {
            Phase::Waiting
        }
    }

    // 7: the phase that the call wants.
    #[tactic(auto, unfolding(crate::specs::Session::good7))]
    pub fn good7(&self, wants: Option<Phase>) -> bool
        ensures { result ≡ good7 wants (lent self.now) }
    {
        admits(wants, self.phase_of())
    }

    // 9: the place of the open question, where the call names one.
    #[tactic(auto, unfolding(crate::specs::Session::good9, crate::specs::Figures::session_of))]
    pub fn good9(&self, wants: Option<Phase>) -> bool
        ensures { result ≡ good9 wants (lent self.now) }
    {
        names(wants, self.head.count)
    }

    // 4: the tolerances.
    #[tactic(auto, unfolding(crate::specs::Session::good4, crate::specs::Figures::session_of))]
    pub fn good4(&self) -> bool
        ensures { result ≡ good4 (lent self.now) }
    {
        tolerances_ok(
            self.n(),
            self.figures[RELATIVE_AT],
            part(self.figures, ABSOLUTE_AT),
        )
    }

    // 3: every other number. Places not in use are +0.0 by 1, and so finite.
    #[tactic(auto, unfolding(crate::specs::Session::good1, crate::specs::Session::run_places, crate::specs::Session::attempt_places, crate::specs::Session::good3, crate::specs::Figures::session_of))]
    pub fn good3(&self) -> bool
        requires { good1 (lent self.now) ≡ true }
        ensures { result ≡ good3 (lent self.now) }
    {
        let k = self.head;
        run_finite(
            k.n,
            k.history,
            self.figures[TIME_AT],
            part(self.figures, STATE_AT),
            part(self.figures, DERIVATIVE_AT),
            part(self.figures, PREVIOUS_AT),
        ) & places::finite(
            part::<JACOBIAN>(self.figures, JACOBIAN_AT),
            used_jacobian(k.attempt, self.n()),
        ) & places::finite_answers(part(self.figures, ANSWERS_AT), k.count, k.n)
    }
}
