// The kinds of arithmetic that a case may ask for.
ghost use Rattle.std.specs.Prelude.{◌≡◌, ◌++◌, Some, codes, decimal};
ghost use Rattle.std.specs.Result.{result_ok, IfErr};
ghost use Rattle.case_file.specs.Kinds.{kind_number, kind_numbered, width_of};

use std::error::Error;
use std::fmt;

#[derive(Clone, Copy, PartialEq, Eq, Debug)]
pub enum Kind {
    Doubles = 1,
    Minutes = 2,
}

impl Kind {
    pub fn number(self) -> u8
        ensures { result ≡ kind_number self }
    {
        self as u8
    }

    // The bytes that one coefficient or value takes.
    pub fn width(self) -> usize
        ensures { result ≡ width_of self }
    {
        match self {
            Kind::Doubles => 8,
            Kind::Minutes => 4,
        }
    }
}

// A number that no kind has.
#[derive(Clone, Copy, PartialEq, Eq, Debug)]
pub struct UnknownKind(pub u8);

impl TryFrom<u8> for Kind {
    type Error = UnknownKind;

    ghost try_from_gives = { λ number kind. (result_ok kind ≡ kind_numbered number) × IfErr kind (λ unknown. unknown.0 ≡ number) };

    fn try_from(number: u8) -> Result<Kind, UnknownKind> {
        match number {
            1 => Ok(Kind::Doubles),
            2 => Ok(Kind::Minutes),
            _ => Err(UnknownKind(number)),
        }
    }
}

// Kept: an impl of one's own names the bytes that are written, as a derived one would not.
impl fmt::Display for UnknownKind {
    ghost output = { λ unknown. Some (codes "no kind has number " ++ decimal unknown.0) };

    fn fmt<W: fmt::Write>(&self, f: &mut fmt::Formatter<W>) -> fmt::Result {
        let number = self.0;
        write!(f, "no kind has number {number}")
    }
}

impl Error for UnknownKind {}
