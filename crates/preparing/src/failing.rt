// Why a problem has no solution: a fault, or want of memory.
ghost use Rattle.std.specs.Prelude.{◌≡◌};
ghost use Rattle.std.specs.Allocator.{alloc_error};
ghost use Rattle.preparing.specs.declared.failing.Failure.TheVariants.{Refusal, NoMemory};

use checks::Fault;
use std::alloc::{AllocError, AllocFailed};

#[derive(Clone, Copy, Debug, PartialEq, Eq)]
pub enum Failure {
    Refusal(Fault),
    NoMemory(AllocError),
}

// Kept: `?` converts by these impls, and their clauses say which failure it makes; a derived one would say nothing.
impl From<Fault> for Failure {
    ghost from_gives = { λ fault r. r ≡ Refusal fault };

    fn from(fault: Fault) -> Failure {
        Failure::Refusal(fault)
    }
}

impl From<AllocError> for Failure {
    ghost from_gives = { λ error r. r ≡ NoMemory error };

    fn from(error: AllocError) -> Failure {
        Failure::NoMemory(error)
    }
}

impl<T: Drop> From<AllocFailed<T>> for Failure {
    ghost from_gives = { λ _ r. r ≡ NoMemory alloc_error };

    fn from(refused: AllocFailed<T>) -> Failure {
        Failure::NoMemory(refused.into())
    }
}
