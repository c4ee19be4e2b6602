use action_fields::Kind;
use action_types::Name;
use std::alloc::{AllocError, AllocFailed};

/// Why a line is faulty: the first reason in this order.
#[derive(Debug, Drop)]
pub enum Why {
    /// It is not UTF-8.
    Utf8,
    /// It is no JSON value, or it nests more than 127 deep, or a number in it is beyond a 64-bit float.
    NotJson,
    /// It is no object with exactly one member. Members of one name count as one, the last.
    NotOneMember,
    /// It is the first line that is not blank, and not a commitInfo.
    InfoNotFirst,
    /// The field of its body is faulty: the least in byte order of the names; the empty name where the body is no object.
    Field { kind: Kind, field: Name },
    /// Its action names again what an earlier line's does: the file of an add or a remove, whose path is the key, an application, a
    /// domain, or, with the empty key, a protocol, a metaData or a commitInfo.
    Double { kind: Kind, key: Name },
}

/// Why a commit was not read.
#[derive(Debug, Drop)]
pub enum BadCommit {
    /// The first faulty line, from 1, and its first reason.
    At { line: u64, why: Why },
    /// Memory ran out.
    Memory,
}

impl From<AllocError> for BadCommit {
    ghost use Rattle.std.specs.Prelude.{◌≡◌};
    ghost use Rattle.action_json.specs.declared.fault.BadCommit.TheVariants.{Memory};

    ghost from_gives = { λ _ e. e ≡ Memory };

    fn from(_refused: AllocError) -> BadCommit {
        BadCommit::Memory
    }
}

impl<T: Drop> From<AllocFailed<T>> for BadCommit {
    ghost use Rattle.std.specs.Prelude.{◌≡◌};
    ghost use Rattle.action_json.specs.declared.fault.BadCommit.TheVariants.{Memory};

    ghost from_gives = { λ _ e. e ≡ Memory };

    fn from(_refused: AllocFailed<T>) -> BadCommit {
        BadCommit::Memory
    }
}

/// Why a line was not read.
#[derive(Debug, Drop)]
pub enum BadLine {
    /// It is faulty: its first reason.
    Because(Why),
    /// Memory ran out.
    Memory,
}

impl From<AllocError> for BadLine {
    ghost use Rattle.std.specs.Prelude.{◌≡◌};
    ghost use Rattle.action_json.specs.declared.fault.BadLine.TheVariants.{Memory};

    ghost from_gives = { λ _ e. e ≡ Memory };

    fn from(_refused: AllocError) -> BadLine {
        BadLine::Memory
    }
}
