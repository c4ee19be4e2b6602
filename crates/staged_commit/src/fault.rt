ghost use Rattle.std.specs.Prelude.{◌≡◌};

use std::alloc::{AllocError, AllocFailed};
use table_rules::Broken;

/// Why no commit was composed: the first reason in this order.
#[derive(Debug, Drop)]
pub enum ComposeError {
    /// The composed actions break this rule first.
    Broken(Broken),
    /// The last commit has the last time that there is, in milliseconds since 1970 UTC.
    TimeEnd { last: i64 },
    /// The text has so many bytes, more than the limit.
    TooLarge { bytes: u64 },
    /// Memory ran out.
    Memory,
}

impl From<AllocError> for ComposeError {
    ghost use Rattle.std.specs.Prelude.{◌≡◌};
    ghost use Rattle.staged_commit.specs.declared.fault.ComposeError.TheVariants.{Memory};

    ghost from_gives = { λ _ e. e ≡ Memory };

    fn from(_refused: AllocError) -> ComposeError {
        ComposeError::Memory
    }
}

impl<T: Drop> From<AllocFailed<T>> for ComposeError {
    ghost use Rattle.std.specs.Prelude.{◌≡◌};
    ghost use Rattle.staged_commit.specs.declared.fault.ComposeError.TheVariants.{Memory};

    ghost from_gives = { λ _ e. e ≡ Memory };

    fn from(_refused: AllocFailed<T>) -> ComposeError {
        ComposeError::Memory
    }
}
