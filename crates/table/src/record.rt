// A record where it stands among the bytes of a table: its fields, and the rules that it keeps.
ghost use Rattle.std.specs.Prelude.{◌≡◌, ◌+◌, ◌*◌, ◌≤◌, ◌<◌, length, MatchOption};
ghost use Rattle.table.specs.Kind.{kind_number};
ghost use Rattle.table.specs.Table.{record_bytes, field, target, kind, first, second, coefficient, index_ok, blank_ok, record_ok};

use crate::kind::Kind;

// The bytes of a record.
pub const RECORD: usize = 16;
// Where its fields stand: the target, the kind, j, k, four bytes that are zero, and c.
const TARGET_AT: usize = 0;

const KIND_AT: usize = 1;

const FIRST_AT: usize = 2;

const SECOND_AT: usize = 3;

const BLANK_AT: usize = 4;

const COEFFICIENT_AT: usize = 8;

// Record r of these bytes.
#[derive(Clone, Copy)]
pub struct Record<'a> {
    pub bytes: &'a [u8],
    pub r: usize,
    ghost whole: { record_bytes * r + record_bytes ≤ length bytes.now },
}

// A component that a kind has is below n; one that it has not is zero.
#[tactic(auto, unfolding(crate::specs::Table::index_ok))]
fn index_ok(has: bool, n: usize, i: usize) -> bool
    ensures { result ≡ index_ok has n i }
{
    if has { i < n } else { i == 0 }
}

impl<'a> Record<'a> {
    pub fn new(bytes: &'a [u8], r: usize) -> Record<'a>
        requires { record_bytes * r + record_bytes ≤ length bytes.now }
        ensures { (result.bytes.now ≡ bytes.now) × (result.r ≡ r) }
    {
        Record { bytes, r }
    }

    fn field(&self, i: usize) -> u8
        requires { i < record_bytes }
        ensures { result ≡ field self.now.bytes.now self.now.r i }
    {
        self.bytes[RECORD * self.r + i]
    }

    #[tactic(auto, unfolding(crate::specs::Table::target))]
    pub fn target(&self) -> usize
        ensures { result ≡ target self.now.bytes.now self.now.r }
    {
        self.field(TARGET_AT) as usize
    }

    // Its kind, if its number is that of one.
    #[tactic(auto, unfolding(crate::specs::Table::kind))]
    pub fn kind(&self) -> Option<Kind>
        ensures { MatchOption result (4 ≤ kind self.now.bytes.now self.now.r) (λ k. kind_number k ≡ kind self.now.bytes.now self.now.r) }
    {
        Kind::of(self.field(KIND_AT))
    }

    // j.
    #[tactic(auto, unfolding(crate::specs::Table::first))]
    pub fn first(&self) -> usize
        ensures { result ≡ first self.now.bytes.now self.now.r }
    {
        self.field(FIRST_AT) as usize
    }

    // k.
    #[tactic(auto, unfolding(crate::specs::Table::second))]
    pub fn second(&self) -> usize
        ensures { result ≡ second self.now.bytes.now self.now.r }
    {
        self.field(SECOND_AT) as usize
    }

    // c.
    #[tactic(auto, unfolding(crate::specs::Table::coefficient))]
    pub fn coefficient(&self) -> f64
        ensures { result ≡ coefficient self.now.bytes.now self.now.r }
    {
        wire::f64_at(self.bytes, RECORD * self.r + COEFFICIENT_AT)
    }

    #[tactic(auto, unfolding(crate::specs::Table::blank_ok, loops::specs::Loop::every))]
    fn blank_ok(&self) -> bool
        ensures { result ≡ blank_ok self.now.bytes.now self.now.r }
    {
        (self.field(BLANK_AT) == 0)
            & (self.field(BLANK_AT + 1) == 0)
            & (self.field(BLANK_AT + 2) == 0)
            & (self.field(BLANK_AT + 3) == 0)
    }

    // Whether it is well-formed for n components.
    pub fn ok(&self, n: usize) -> bool
        ensures { result ≡ record_ok n self.now.bytes.now self.now.r }
    {
        let Some(kind) = self.kind() else {
            return false;
        };
        (self.target() < n)
            & index_ok(kind.has_first(), n, self.first())
            & index_ok(kind.has_second(), n, self.second())
            & self.blank_ok()
            & float::finite(self.coefficient())
    }
}
