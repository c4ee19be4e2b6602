ghost use Rattle.std.specs.Prelude.{◌≡◌};
ghost use Rattle.table_model.specs.declared.answers.StepFault.TheVariants.{Memory};

use commit_catalog::Ratified;
use log_names::LogName;
use std::alloc::{AllocError, AllocFailed};

/// Where the store failed: at the folder of the log, when it was listed, or at one of its files.
#[derive(Clone, Copy, Debug, PartialEq, Eq)]
pub enum Spot {
    Folder,
    File(LogName),
}

/// Why a turn was refused.
#[derive(Clone, Copy, Debug, PartialEq, Eq)]
pub enum StepFault {
    /// The store failed at this spot: its count of faults rose by one in this turn.
    Fault { spot: Spot },
    /// Want of memory: nothing changed.
    Memory,
}

impl From<AllocError> for StepFault {
    ghost from_gives = { λ _ e. e ≡ Memory };

    fn from(_error: AllocError) -> StepFault {
        StepFault::Memory
    }
}

impl<T: Drop> From<AllocFailed<T>> for StepFault {
    ghost from_gives = { λ _ e. e ≡ Memory };

    fn from(_error: AllocFailed<T>) -> StepFault {
        StepFault::Memory
    }
}

/// The answer to the staging of a commit.
#[derive(Clone, Copy, Debug, PartialEq, Eq)]
pub enum Staged {
    /// The file stands under its name with these bytes.
    Done,
    /// The name stands already, or its version is ratified under its id.
    Taken,
}

/// What the catalogue has of one version.
#[derive(Clone, Copy, Debug, PartialEq, Eq)]
pub struct Looked {
    /// The ratified commit of that version.
    pub found: Option<Ratified>,
    /// The number of ratified versions.
    pub count: u64,
}
