use log_names::LogName;

/// One turn of another caller: a variant for each call of a caller's access that is a turn, with its arguments.
#[derive(Debug, Drop)]
pub enum Turn {
    /// The catalogue now.
    Commits,
    /// The commit of a version, and how many there are.
    Lookup {
        version: u64,
    },
    /// The names of the log.
    List,
    /// The file of a name; only of a name that has a text.
    Get {
        name: LogName,
    },
    /// Stages a commit of a version under an id.
    Stage {
        version: u64,
        id: u128,
        bytes: Vec<u8>,
    },
    /// Ratifies a staged commit as the next version; only where its file stands, with the text of a next commit of
    /// the log, of this time in milliseconds since 1970 UTC.
    Ratify {
        version: u64,
        id: u128,
        time: i64,
    },
    /// Publishes a ratified version; only its bytes, and only where all versions below are published.
    Publish {
        version: u64,
        bytes: Vec<u8>,
    },
    /// Reports that the versions below `count` are published; only where they are.
    Report {
        count: u64,
    },
    /// Clears the staged file of a version; only of a reported one.
    Clear {
        version: u64,
        id: u128,
    },
}

/// A turn of another caller, made before the caller's turn of the number `before`, counted from 1. It is passed over
/// where its condition does not hold, and left out where the store fails while that is tested.
#[derive(Debug, Drop)]
pub struct Foreign {
    pub before: u64,
    pub turn: Turn,
}

/// What became of a turn of another caller.
#[derive(Clone, Copy, Debug, PartialEq, Eq)]
pub(crate) enum Fate {
    /// It was made, whatever the store answered.
    Made,
    /// It was passed over: its condition does not hold.
    Passed,
    /// It was left out: the store failed while its condition was tested.
    Untested,
}
