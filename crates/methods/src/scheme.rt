// The sixteen schemes, and the numbers that stand for them.
ghost use Rattle.std.specs.Prelude.{◌≡◌};
ghost use Rattle.methods.specs.Scheme.{number_of, Decodes};

use std::error::Error;
use std::fmt;

// The schemes of the published solver, in its order.
#[derive(Clone, Copy, Debug, PartialEq, Eq)]
pub enum Scheme {
    LawsonEuler,
    NorsettEuler,
    Etdrk2,
    Etdrk3,
    Etdrk4,
    HochOst4,
    Exp4,
    Epirk4s3A,
    Epirk4s3B,
    Epirk5s3,
    Exprb53s3,
    Epirk5P1,
    Epirk5P2,
    Etd2,
    Exprb32,
    Exprb43,
}

// A number that no scheme has.
#[derive(Clone, Copy, Debug, PartialEq, Eq)]
pub struct UnknownScheme(pub u8);

impl TryFrom<u8> for Scheme {
    type Error = UnknownScheme;

    ghost try_from_gives = { Decodes };

    fn try_from(number: u8) -> Result<Scheme, UnknownScheme> {
        match number {
            0 => Ok(Scheme::LawsonEuler),
            1 => Ok(Scheme::NorsettEuler),
            2 => Ok(Scheme::Etdrk2),
            3 => Ok(Scheme::Etdrk3),
            4 => Ok(Scheme::Etdrk4),
            5 => Ok(Scheme::HochOst4),
            6 => Ok(Scheme::Exp4),
            7 => Ok(Scheme::Epirk4s3A),
            8 => Ok(Scheme::Epirk4s3B),
            9 => Ok(Scheme::Epirk5s3),
            10 => Ok(Scheme::Exprb53s3),
            11 => Ok(Scheme::Epirk5P1),
            12 => Ok(Scheme::Epirk5P2),
            13 => Ok(Scheme::Etd2),
            14 => Ok(Scheme::Exprb32),
            15 => Ok(Scheme::Exprb43),
            _ => Err(UnknownScheme(number)),
        }
    }
}

impl fmt::Display for UnknownScheme {
    fn fmt<W: fmt::Write>(&self, f: &mut fmt::Formatter<W>) -> fmt::Result {
        write!(f, "no scheme has number {}", self.0)
    }
}

impl Error for UnknownScheme {}

impl From<Scheme> for u8 {
    ghost from_gives = { λ scheme number. number ≡ number_of scheme };

    fn from(scheme: Scheme) -> u8 {
        scheme as u8
    }
}

// The schemes that are named elsewhere: one remembers, two have an error vector.
// Kept: numbers, since they are compared with a session's scheme, which may be any.
pub const ETD2: u8 = Scheme::Etd2 as u8;

pub const EXPRB32: u8 = Scheme::Exprb32 as u8;

pub const EXPRB43: u8 = Scheme::Exprb43 as u8;
