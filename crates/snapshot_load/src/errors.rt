ghost use Rattle.std.specs.Prelude.{◌≡◌};
ghost use Rattle.snapshot_load.specs.declared.errors.LoadError.{LoadError};
ghost use Rattle.snapshot_load.specs.declared.errors.LoadError.TheVariants as load;
ghost use Rattle.table_model.specs.declared.answers.StepFault.{StepFault};
ghost use Rattle.table_model.specs.declared.answers.StepFault.TheVariants as step;
ghost use Rattle.snapshot_load.specs.Converting.{of_fault};

use std::alloc::{AllocError, AllocFailed};
use table_model::{Spot, StepFault};
use thiserror::Error;

/// Why a load has no answer.
#[derive(Clone, Copy, Debug, Error)]
pub enum LoadError {
    /// The table has no commit.
    #[error("the table has no commit")]
    NoTable,
    /// The version asked for is above the last one.
    #[error("version {version} is above the last version {latest}")]
    AfterLatest { version: u64, latest: u64 },
    /// The time asked for is below that of version 0, in milliseconds since 1970 UTC.
    #[error("the time is before that of version 0, which is {first}")]
    BeforeFirst { first: i64, latest: u64 },
    /// The store failed at this spot, or, where it does not tell what it holds, the file of a ratified version is
    /// absent or has no commit in it.
    #[error("the store failed at {spot:?}")]
    Fault { spot: Spot },
    /// Want of memory.
    #[error("out of memory")]
    Memory,
}

impl From<StepFault> for LoadError {
    ghost from_gives = { λ f e. e ≡ of_fault f };

    fn from(fault: StepFault) -> LoadError {
        match fault {
            StepFault::Fault { spot } => LoadError::Fault { spot },
            StepFault::Memory => LoadError::Memory,
        }
    }
}

impl From<AllocError> for LoadError {
    ghost from_gives = { λ _ e. e ≡ load.Memory };

    fn from(_error: AllocError) -> LoadError {
        LoadError::Memory
    }
}

impl<T: Drop> From<AllocFailed<T>> for LoadError {
    ghost from_gives = { λ _ e. e ≡ load.Memory };

    fn from(_error: AllocFailed<T>) -> LoadError {
        LoadError::Memory
    }
}
