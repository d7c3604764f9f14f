// Why a line has no answer.
ghost use Rattle.std.specs.Prelude.{◌≡◌};
ghost use Rattle.script.specs.declared.failure.Failure.TheVariants.{OutOfMemory};
ghost use Rattle.script.specs.Failures.{failure_of};

use hex::FromHexError;
use std::alloc::{AllocError, AllocFailed};

// A line that is not taken, or no memory for its answer.
#[derive(Clone, Copy, Debug, PartialEq, Eq)]
pub enum Failure {
    // It is no line of the protocol.
    NotTaken,
    OutOfMemory,
}

impl From<AllocError> for Failure {
    ghost from_gives = { λ _ r. r ≡ OutOfMemory };

    fn from(_e: AllocError) -> Failure {
        Failure::OutOfMemory
    }
}

impl<T: Drop> From<AllocFailed<T>> for Failure {
    ghost from_gives = { λ _ r. r ≡ OutOfMemory };

    fn from(_e: AllocFailed<T>) -> Failure {
        Failure::OutOfMemory
    }
}

impl From<FromHexError> for Failure {
    ghost from_gives = { λ e r. r ≡ failure_of e };

    fn from(e: FromHexError) -> Failure {
        match e {
            FromHexError::OutOfMemory => Failure::OutOfMemory,
            _ => Failure::NotTaken,
        }
    }
}
