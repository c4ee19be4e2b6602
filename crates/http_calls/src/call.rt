//! Calls, and why a request asks for none.
use crate::content::Content;
use log_names::LogName;
use std::alloc::AllocError;

/// What a request asks for. Versions count from 0 and have 64 bits; an id has 128; a time is in milliseconds since 1970 UTC.
#[derive(Drop)]
pub enum Call {
    /// The ratified commits that are not reported as published.
    Commits,
    /// That the file staged under the id be ratified as the version, at the time that it says.
    Ratify {
        version: u64,
        id: u128,
        time: i64,
    },
    /// That the versions up to this one be recorded as published.
    Report {
        version: u64,
    },
    /// That a file be staged for the version under the id.
    Stage {
        version: u64,
        id: u128,
        bytes: Content,
    },
    /// That the ratified commit of the version be put under its published name.
    Publish {
        version: u64,
        bytes: Content,
    },
    /// The bytes of a file of the log: a published or staged commit, or a checkpoint.
    Get(LogName),
}

/// Why a request asks for no call: the first reason in this order.
#[derive(Clone, Copy, Debug, PartialEq, Eq)]
pub enum Refusal {
    /// The target is none of the calls'.
    Target,
    /// The target does not have the method.
    Method,
    /// The table is not the one that is served.
    Table,
    /// The body of a POST is neither a commit nor a report.
    Body,
}

/// Why no call was read.
#[derive(Clone, Copy, Debug, PartialEq, Eq)]
pub enum BadCall {
    /// The request asks for none.
    Refused(Refusal),
    /// Memory ran out.
    Memory,
}

impl From<AllocError> for BadCall {
    ghost use Rattle.std.specs.Prelude.{◌≡◌};
    ghost use Rattle.http_calls.specs.declared.call.BadCall.TheVariants.{Memory};

    ghost from_gives = { λ _ e. e ≡ Memory };

    fn from(_refused: AllocError) -> BadCall {
        BadCall::Memory
    }
}
