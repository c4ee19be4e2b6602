use action_json::Why;
use std::alloc::{AllocError, AllocFailed};

/// Why a checkpoint was not read: the fault of the first faulty line, and where no line has one the
/// first of the others, in their order.
#[derive(Debug, Drop)]
pub enum BadCheckpoint {
    /// The first faulty line, from 1, and its first reason. There is no first line that has to be of a kind; a second
    /// `checkpointMetadata` is a double with the empty key.
    Line { line: u64, why: Why },
    /// The first faulty line, from 1, is a sidecar, whose body is an object.
    Sidecar { line: u64 },
    /// There is no `checkpointMetadata`.
    NoMetadata,
    /// It is a checkpoint of this version, and not of the one that is asked for.
    WrongVersion { found: u64 },
    /// There is no protocol or no metaData.
    NoState,
    /// Memory ran out.
    Memory,
}

impl From<AllocError> for BadCheckpoint {
    ghost use Rattle.std.specs.Prelude.{◌≡◌};
    ghost use Rattle.checkpoint_v2.specs.declared.fault.BadCheckpoint.TheVariants.{Memory};

    ghost from_gives = { λ _ e. e ≡ Memory };

    fn from(_refused: AllocError) -> BadCheckpoint {
        BadCheckpoint::Memory
    }
}

impl<T: Drop> From<AllocFailed<T>> for BadCheckpoint {
    ghost use Rattle.std.specs.Prelude.{◌≡◌};
    ghost use Rattle.checkpoint_v2.specs.declared.fault.BadCheckpoint.TheVariants.{Memory};

    ghost from_gives = { λ _ e. e ≡ Memory };

    fn from(_refused: AllocFailed<T>) -> BadCheckpoint {
        BadCheckpoint::Memory
    }
}
