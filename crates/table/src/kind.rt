// The kinds of records.
ghost use Rattle.std.specs.Prelude.{◌≡◌, ◌≤◌, MatchOption};
ghost use Rattle.table.specs.Table.{has_first, has_second};
ghost use Rattle.table.specs.Kind.{kind_number};

// What a record adds to its target: c, c·u_j, (c·u_j)·u_k, (c·u_j)·time.
#[derive(Clone, Copy, Debug, PartialEq, Eq)]
pub enum Kind {
    Constant,
    Linear,
    Product,
    Timed,
}

impl Kind {
    // The kind with this number, if there is one.
    pub fn of(number: u8) -> Option<Kind>
        ensures { MatchOption result (4 ≤ number) (λ kind. kind_number kind ≡ number) }
    {
        match number {
            0 => Some(Kind::Constant),
            1 => Some(Kind::Linear),
            2 => Some(Kind::Product),
            3 => Some(Kind::Timed),
            _ => None,
        }
    }

    // Whether it has j.
    pub fn has_first(self) -> bool
        ensures { result ≡ has_first (kind_number self) }
    {
        match self {
            Kind::Constant => false,
            Kind::Linear | Kind::Product | Kind::Timed => true,
        }
    }

    // Whether it has k.
    pub fn has_second(self) -> bool
        ensures { result ≡ has_second (kind_number self) }
    {
        match self {
            Kind::Product => true,
            Kind::Constant | Kind::Linear | Kind::Timed => false,
        }
    }
}
