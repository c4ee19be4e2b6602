use action_fields::BadBody;
use action_types::Name;
use std::alloc::{AllocError, AllocFailed};

/// Why a line is no request: the first reason in this order.
#[derive(PartialEq, Eq, Debug, Drop)]
pub enum LineWhy {
    /// It is not UTF-8.
    Utf8,
    /// It is no JSON value, or it nests more than 127 deep, or a number in it is beyond a 64-bit float.
    NotJson,
    /// It is no object.
    NotObject,
    /// Its `op` is missing, no text, or no request that is built.
    Op,
    /// The least member in byte order that such a request does not have; where there is none, the least one that is faulty, or
    /// needed and missing.
    Field { field: Name },
    /// It has more bytes than a line may have.
    TooLong,
}

/// Why no request was read of a line.
#[derive(PartialEq, Eq, Debug, Drop)]
pub enum BadLine {
    /// It is not UTF-8.
    Utf8,
    /// It is no JSON value, or it nests more than 127 deep, or a number in it is beyond a 64-bit float.
    NotJson,
    /// It is no object.
    NotObject,
    /// Its `op` is missing, no text, or no request that is built.
    Op,
    /// The least member in byte order that such a request does not have; where there is none, the least one that is faulty, or
    /// needed and missing.
    Field { field: Name },
    /// Memory ran out.
    Memory,
}

impl From<AllocError> for BadLine {
    ghost use Rattle.std.specs.Prelude.{◌≡◌};
    ghost use Rattle.session_lines.specs.declared.fault.BadLine.TheVariants.{Memory};

    ghost from_gives = { λ _ e. e ≡ Memory };

    fn from(_refused: AllocError) -> BadLine {
        BadLine::Memory
    }
}

impl<T: Drop> From<AllocFailed<T>> for BadLine {
    ghost use Rattle.std.specs.Prelude.{◌≡◌};
    ghost use Rattle.session_lines.specs.declared.fault.BadLine.TheVariants.{Memory};

    ghost from_gives = { λ _ e. e ≡ Memory };

    fn from(_refused: AllocFailed<T>) -> BadLine {
        BadLine::Memory
    }
}

impl From<BadBody> for BadLine {
    ghost use Rattle.std.specs.Prelude.{◌≡◌};
    ghost use Rattle.session_lines.specs.Faults.{of_body};

    ghost from_gives = { λ b e. e ≡ of_body b };

    fn from(bad: BadBody) -> BadLine {
        match bad {
            BadBody::Field { field } => BadLine::Field { field },
            BadBody::Memory => BadLine::Memory,
        }
    }
}
