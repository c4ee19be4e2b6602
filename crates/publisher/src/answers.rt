ghost use Rattle.std.specs.Prelude.{◌≡◌};
ghost use Rattle.publisher.specs.declared.answers.PublishError.TheVariants as publish;
ghost use Rattle.publisher.specs.Converting.{of_fault};

use std::alloc::AllocError;
use table_model::{Spot, StepFault};
use thiserror::Error;

/// All versions are published and reported.
#[derive(Clone, Copy, Debug, PartialEq, Eq)]
pub struct Published {
    /// So many versions are published, from version 0 on: all that the catalogue had.
    pub published: u64,
    /// The last version that the catalogue had.
    pub latest: u64,
}

/// The staged files of the reported versions are gone.
#[derive(Clone, Copy, Debug, PartialEq, Eq)]
pub struct ClearedAll {
    /// So many files were removed.
    pub cleared: u64,
    /// The last version that the catalogue had.
    pub latest: u64,
}

/// Why a table was not published or cleared.
#[derive(Clone, Copy, Debug, Error)]
pub enum PublishError {
    /// The table has no commit.
    #[error("the table has no commit")]
    NoTable,
    /// The store failed at this spot, or, where it does not tell what it holds, a version has neither its staged nor
    /// its published file.
    #[error("the store failed at {spot:?}")]
    Fault { spot: Spot },
    /// Want of memory.
    #[error("out of memory")]
    Memory,
}

impl From<StepFault> for PublishError {
    ghost from_gives = { λ f e. e ≡ of_fault f };

    fn from(fault: StepFault) -> PublishError {
        match fault {
            StepFault::Fault { spot } => PublishError::Fault { spot },
            StepFault::Memory => PublishError::Memory,
        }
    }
}

impl From<AllocError> for PublishError {
    ghost from_gives = { λ _ e. e ≡ publish.Memory };

    fn from(_error: AllocError) -> PublishError {
        PublishError::Memory
    }
}

/// Why a table was not drained.
#[derive(Clone, Copy, Debug, Error)]
pub enum DrainError {
    /// The store failed at this spot, or, where it does not tell what it holds, a version has neither its staged nor
    /// its published file.
    #[error("the store failed at {spot:?}")]
    Fault { spot: Spot },
    /// Want of memory.
    #[error("out of memory")]
    Memory,
}
