// Why there is no listing.
ghost use Rattle.std.specs.Prelude.{◌≡◌, Some};
ghost use Rattle.foldureem.specs.declared.failure.Failure.TheVariants.{OutOfMemory, Refused};
ghost use Rattle.foldureem.specs.Verdicts.{failure_text};

use market::Refusal;
use std::alloc::AllocError;
use std::error::Error;
use std::fmt;

#[derive(Clone, Copy, PartialEq, Eq, Debug)]
pub enum Failure {
    OutOfMemory,
    // a question got a no
    Refused(Refusal),
}

impl From<AllocError> for Failure {
    ghost from_gives = { λ _ failure. failure ≡ OutOfMemory };

    fn from(_error: AllocError) -> Self {
        Self::OutOfMemory
    }
}

impl From<Refusal> for Failure {
    ghost from_gives = { λ refusal failure. failure ≡ Refused refusal };

    fn from(refusal: Refusal) -> Self {
        Self::Refused(refusal)
    }
}

impl fmt::Display for Failure {
    ghost output = { λ failure. Some (failure_text failure) };

    fn fmt<W: fmt::Write>(&self, f: &mut fmt::Formatter<W>) -> fmt::Result {
        match self {
            Failure::OutOfMemory => f.write_str("out of memory"),
            Failure::Refused(refusal) => write!(f, "refused {refusal}"),
        }
    }
}

impl Error for Failure {}
