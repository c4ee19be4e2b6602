ghost use Rattle.std.specs.Prelude.{◌≡◌};

use action_types::Name;
use std::alloc::{AllocError, AllocFailed};

/// Why a body was not read.
#[derive(Debug, Drop)]
pub enum BadBody {
    /// The least faulty field, in byte order of the names; the empty name where the body is no object.
    Field { field: Name },
    /// Memory ran out.
    Memory,
}

impl From<AllocError> for BadBody {
    ghost use Rattle.std.specs.Prelude.{◌≡◌};
    ghost use Rattle.action_fields.specs.declared.fault.BadBody.TheVariants.{Memory};

    ghost from_gives = { λ _ e. e ≡ Memory };

    fn from(_refused: AllocError) -> BadBody {
        BadBody::Memory
    }
}

impl<T: Drop> From<AllocFailed<T>> for BadBody {
    ghost use Rattle.std.specs.Prelude.{◌≡◌};
    ghost use Rattle.action_fields.specs.declared.fault.BadBody.TheVariants.{Memory};

    ghost from_gives = { λ _ e. e ≡ Memory };

    fn from(_refused: AllocFailed<T>) -> BadBody {
        BadBody::Memory
    }
}
