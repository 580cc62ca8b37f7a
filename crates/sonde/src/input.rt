// The input where its bytes stand: its fields, and the run that it opens.
ghost use Rattle.std.specs.Prelude.{◌≡◌, ◌⊎◌, true, false, ◌+◌, ◌*◌, ◌≤◌, ◌<◌, length, MatchOption};
ghost use Rattle.evaluation.specs.Sizes.{places};
ghost use Rattle.session.specs.Lent.{told_by};
ghost use Rattle.table.specs.Whole.{open_by_table};
ghost use Rattle.sonde.specs.Frames.{size_in, scheme_in, steps_in, time_in, step_in, relative_in, state_from, table_from, vector_in, table_in, reaches_table, run_in};

use evaluation::PLACES;
use methods::Dimension;
use session::{Figures, Left};

// The bytes of a double.
const DOUBLE: usize = 8;

// Where its parts begin: n, the scheme, the step count, the time, the step, the relative tolerance and the absolute ones.
const SIZE_AT: usize = 0;

const SCHEME_AT: usize = 1;

const STEPS_FROM: usize = 2;

const TIME_FROM: usize = 4;

const STEP_FROM: usize = 12;

const RELATIVE_FROM: usize = 20;

const ABSOLUTE_FROM: usize = 28;

// How much of an input is kept: the longest one that is good, and a byte, which tells one that is longer.
pub const KEPT: usize = ABSOLUTE_FROM + 2 * DOUBLE * PLACES + table::RECORD * table::RECORDS + 1;

// Where the n states begin.
fn state_at(n: Dimension) -> usize
    ensures { result ≡ state_from n }
{
    ABSOLUTE_FROM + DOUBLE * n.get()
}

// Where the table begins.
fn table_at(n: Dimension) -> usize
    ensures { result ≡ table_from n }
{
    state_at(n) + DOUBLE * n.get()
}

// An input that comes to its table, with at most 16 components.
#[derive(Clone, Copy)]
pub struct Input<'a> {
    n: Dimension,
    bytes: &'a [u8],
    ghost small: { n ≤ places },
    ghost size: { n ≡ size_in bytes.now },
    ghost whole: { table_from n ≤ length bytes.now },
}

impl<'a> Input<'a> {
    // These bytes as an input, if they come to their table and n is at most 16.
    #[tactic(auto, unfolding(crate::specs::Frames::size_in, crate::specs::Frames::reaches_table))]
    pub fn new(bytes: &'a [u8]) -> Option<Input<'a>>
        ensures { MatchOption result
            ((reaches_table bytes.now ≡ false) ⊎ (places < size_in bytes.now))
            (λ input. (reaches_table bytes.now ≡ true) × (input.bytes.now ≡ bytes.now)) }
    {
        let n = *bytes.get(SIZE_AT)? as usize;
        if n > PLACES {
            return None;
        }
        let n = Dimension::new(n);
        if bytes.len() < table_at(n) {
            return None;
        }
        Some(Input { n, bytes })
    }

    // How many components there are.
    pub fn size(&self) -> Dimension
        ensures { result ≡ size_in self.now.bytes.now }
    {
        self.n
    }

    #[tactic(auto, unfolding(crate::specs::Frames::scheme_in))]
    fn scheme(&self) -> u8
        ensures { result ≡ scheme_in self.now.bytes.now }
    {
        self.bytes[SCHEME_AT]
    }

    // How many steps there are to be.
    #[tactic(auto, unfolding(crate::specs::Frames::steps_in, wire::specs::Wire::word16))]
    pub fn steps(&self) -> u16
        ensures { result ≡ steps_in self.now.bytes.now }
    {
        u16::from_le_bytes([self.bytes[STEPS_FROM], self.bytes[STEPS_FROM + 1]])
    }

    #[tactic(auto, unfolding(crate::specs::Frames::time_in))]
    fn time(&self) -> f64
        ensures { result ≡ time_in self.now.bytes.now }
    {
        wire::f64_at(self.bytes, TIME_FROM)
    }

    #[tactic(auto, unfolding(crate::specs::Frames::step_in))]
    pub fn step(&self) -> f64
        ensures { result ≡ step_in self.now.bytes.now }
    {
        wire::f64_at(self.bytes, STEP_FROM)
    }

    #[tactic(auto, unfolding(crate::specs::Frames::relative_in))]
    fn relative(&self) -> f64
        ensures { result ≡ relative_in self.now.bytes.now }
    {
        wire::f64_at(self.bytes, RELATIVE_FROM)
    }

    // The n doubles from place `from` on.
    fn vector(&self, from: usize) -> [f64; PLACES]
        requires { from + 8 * self.now.n ≤ length self.now.bytes.now }
        ensures { result ≡ vector_in self.now.n self.now.bytes.now from }
    {
        matrix::vector(self.n, |i| wire::f64_at(self.bytes, from + DOUBLE * i))
    }

    // What is behind the states.
    #[tactic(auto, unfolding(crate::specs::Frames::table_in))]
    pub fn table(&self) -> &'a [u8]
        ensures { result.now ≡ table_in self.now.bytes.now }
    {
        &self.bytes[table_at(self.n)..]
    }

    // Opens the run by the table.
    pub fn open(&self, figures: &mut Figures) -> Left
        ensures { told_by result figures.new ≡ open_by_table (run_in self.now.bytes.now) (table_in self.now.bytes.now) }
    {
        let absolute = self.vector(ABSOLUTE_FROM);
        let state = self.vector(state_at(self.n));
        table::open_by_table(
            self.scheme(),
            self.n.get(),
            self.time(),
            &state,
            self.relative(),
            &absolute,
            self.table(),
            figures,
        )
    }
}
