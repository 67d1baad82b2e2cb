// What a refused call answers: which check failed, at which place, in which layer.
#![tactic(auto)]

ghost use Rattle.std.specs.Prelude.{◌≡◌, ◌==◌, decimal, Some};
ghost use Rattle.checks.specs.Faults.{number_of, word_of, line_of};
ghost use Rattle.std.specs.Option.{option_map};
ghost use Rattle.std.specs.Result.{result_err};
ghost use Rattle.checks.specs.Verdicts.{fault_at, fault_if, LowestIsLowest};
ghost use Rattle.std.specs.Cmp.Rules.{comparing};
ghost use Rattle.std.proofs.Common.{rules};
ghost use Rattle.std.specs.Cmp as Keys;

use std::fmt;

#[derive(Clone, Copy, Debug)]
pub enum Check {
    Size = 1,
    Length = 2,
    RowStart = 3,
    Column = 4,
    Row = 5,
    Seed = 6,
    Rank = 7,
    Tile = 8,
    Lawful = 9,
    ScheduleStart = 10,
    Schedule = 11,
    WaitWord = 12,
    Coefficient = 13,
    RightHandSide = 14,
    Vector = 15,
    NoSuchTile = 16,
    TileDone = 17,
    TileWaiting = 18,
    FileLength = 19,
    FileFormat = 20,
}

impl Check {
    pub fn number(self) -> u8
        ensures { result ≡ number_of self }
    {
        self as u8
    }

    // Fails at a place where its test holds.
    pub fn refuse_if(self, bad: bool, place: usize, layer: Layer) -> Result<(), Fault>
        ensures { result_err result ≡ fault_if layer self place bad }
    {
        if bad {
            return Err(Fault {
                check: self,
                place,
                layer,
            });
        }
        Ok(())
    }

    // Fails at the place that was found, if one was.
    pub fn refuse_found(self, found: Option<usize>, layer: Layer) -> Result<(), Fault>
        ensures { result_err result ≡ option_map (fault_at layer self) found }
    {
        match found {
            Some(place) => self.refuse_if(true, place, layer),
            None => Ok(()),
        }
    }
}

// Two checks are the same where their numbers are.
// Kept: a derived equality has no text in which a wrong comparison could be tried.
impl PartialEq for Check {
    ghost eq = { λ a b. number_of a == number_of b };

    ghost laws = { Keys.partial_equiv_from_equiv (Prim.search (comparing, rules)) };

    fn eq(&self, other: &Check) -> bool {
        self.number() == other.number()
    }
}

impl Eq for Check {
    ghost laws = { Prim.search (comparing, rules) };
}

#[derive(Clone, Copy, PartialEq, Eq, Debug)]
pub enum Layer {
    File,
    Matrix,
    Plan,
    Run,
}

impl Layer {
    pub fn word(self) -> &'static str
        ensures { result.now ≡ word_of self }
    {
        match self {
            Layer::File => "file",
            Layer::Matrix => "matrix",
            Layer::Plan => "plan",
            Layer::Run => "run",
        }
    }
}

impl fmt::Display for Layer {
    ghost output = { λ layer. Some (word_of layer) };

    fn fmt<W: fmt::Write>(&self, f: &mut fmt::Formatter<W>) -> fmt::Result {
        f.write_str(self.word())
    }
}

impl fmt::Display for Check {
    ghost output = { λ check. Some (decimal (number_of check)) };

    fn fmt<W: fmt::Write>(&self, f: &mut fmt::Formatter<W>) -> fmt::Result {
        let number = self.number();
        write!(f, "{number}")
    }
}

#[derive(Clone, Copy, PartialEq, Eq, Debug)]
pub struct Fault {
    pub check: Check,
    pub place: usize,
    pub layer: Layer,
}

impl fmt::Display for Fault {
    ghost output = { λ fault. Some (line_of fault) };

    fn fmt<W: fmt::Write>(&self, f: &mut fmt::Formatter<W>) -> fmt::Result {
        let Fault {
            check,
            place,
            layer,
        } = *self;
        write!(f, "refused {check} place {place} in {layer}")
    }
}

// A check's fault stands at the lowest place where its test holds, and there is none exactly where it holds nowhere.
pub fn lowest_is_lowest()
    ensures { LowestIsLowest }
{}
