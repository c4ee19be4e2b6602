ghost use Rattle.std.specs.Prelude.{◌≡◌};
ghost use Rattle.writer_txn.specs.declared.errors.WriteError.TheVariants as failed;
ghost use Rattle.writer_txn.specs.Converting.{of_fault, of_load};

use action_types::Name;
use conflict_rules::Rule;
use snapshot_load::LoadError;
use std::alloc::{AllocError, AllocFailed};
use table_model::{Spot, StepFault};
use table_rules::Broken;
use thiserror::Error;

/// Why nothing was committed. The call itself then put no commit of its own into the log; another caller may still
/// ratify the copy that it staged.
#[derive(Debug, Drop, Error)]
pub enum WriteError {
    /// The table has no commit.
    #[error("the table has no commit")]
    NoTable,
    /// The table has a commit.
    #[error("the table exists, and its last version is {latest}")]
    Exists {
        latest: u64,
    },
    /// The commit breaks this rule first; the base is none for a create.
    #[error("the commit breaks a rule: {why:?}")]
    Broken {
        base: Option<u64>,
        why: Broken,
    },
    /// A commit above the base conflicts with the write: the lowest such version, its first rule, and the least key; where that
    /// is a file with a deletion vector, its path is the key, and the vector's unique id stands beside it.
    #[error("the commit of version {winner} conflicts by the rule {rule:?}")]
    Conflict {
        base: u64,
        winner: u64,
        rule: Rule,
        key: Name,
        vector: Option<Name>,
        latest: u64,
    },
    /// As many ratifications were refused as the limit of attempts says.
    #[error("{attempts} attempts were refused, and the last version is {latest}")]
    Contended {
        attempts: u64,
        latest: u64,
    },
    /// The table has as many versions as the limit says.
    #[error("the table is full, and its last version is {latest}")]
    Full {
        latest: u64,
    },
    /// The last commit has the last time that there is, in milliseconds since 1970 UTC.
    #[error("there is no time after {last}")]
    TimeEnd {
        base: u64,
        last: i64,
    },
    /// The text of the commit has so many bytes, more than the limit; the base is none for a create.
    #[error("the commit has {bytes} bytes, more than the limit")]
    TooLarge {
        base: Option<u64>,
        bytes: u64,
    },
    /// The name of the staged commit was taken; the base is none for a create.
    #[error("the staged name of version {version} is taken")]
    Taken {
        base: Option<u64>,
        version: u64,
        id: u128,
    },
    /// The store failed at this spot, or, where it does not tell what it holds, the file of a ratified version is
    /// absent or has no commit in it.
    #[error("the store failed at {spot:?}")]
    Fault {
        spot: Spot,
    },
    /// Want of memory.
    #[error("out of memory")]
    Memory,
}

impl From<StepFault> for WriteError {
    ghost from_gives = { λ f e. e ≡ of_fault f };

    fn from(fault: StepFault) -> WriteError {
        match fault {
            StepFault::Fault { spot } => WriteError::Fault { spot },
            StepFault::Memory => WriteError::Memory,
        }
    }
}

/// The errors of a load of the last version; the others count as want of memory.
impl From<LoadError> for WriteError {
    ghost from_gives = { λ f e. e ≡ of_load f };

    fn from(error: LoadError) -> WriteError {
        match error {
            LoadError::NoTable => WriteError::NoTable,
            LoadError::Fault { spot } => WriteError::Fault { spot },
            LoadError::AfterLatest { .. } | LoadError::BeforeFirst { .. } | LoadError::Memory => {
                WriteError::Memory
            }
        }
    }
}

impl From<AllocError> for WriteError {
    ghost from_gives = { λ _ e. e ≡ failed.Memory };

    fn from(_error: AllocError) -> WriteError {
        WriteError::Memory
    }
}

impl<T: Drop> From<AllocFailed<T>> for WriteError {
    ghost from_gives = { λ _ e. e ≡ failed.Memory };

    fn from(_error: AllocFailed<T>) -> WriteError {
        WriteError::Memory
    }
}
