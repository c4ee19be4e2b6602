use crate::fault::LineWhy;
use action_types::Name;
use conflict_rules::Rule;
use table_model::{Snapshot, Spot};
use table_rules::Broken;

/// The answer to a line. Versions count from 0, times are in milliseconds since 1970 UTC; `base` is the version that a write was
/// made on, none for a create, and `latest` the last version of the table.
#[derive(Drop)]
pub enum Reply {
    /// The version was ratified.
    Committed {
        base: Option<u64>,
        time: i64,
        version: u64,
    },
    /// The application has recorded this number, which is not below that of the write.
    Already {
        latest: u64,
        recorded: i64,
    },
    /// The state of a version.
    Loaded(Snapshot),
    /// The table has no commit.
    NoTable,
    /// The table has a commit.
    Exists {
        latest: u64,
    },
    /// The commit would break this rule.
    Broken {
        base: Option<u64>,
        why: Broken,
    },
    /// The write conflicts with the commit of the version `winner`; the vector is the unique id where the key is a file with one.
    Conflict {
        base: u64,
        key: Name,
        latest: u64,
        rule: Rule,
        vector: Option<Name>,
        winner: u64,
    },
    /// Others ratified first, so often.
    Contended {
        attempts: u64,
        latest: u64,
    },
    /// The table has as many versions as it may have.
    Full {
        latest: u64,
    },
    /// The last commit has the last time that there is, in milliseconds since 1970 UTC.
    TimeEnd {
        base: u64,
        last: i64,
    },
    /// The commit's text has so many bytes, more than the limit.
    TooLarge {
        base: Option<u64>,
        bytes: u64,
    },
    /// A file stands under the staged name of this version and id.
    Taken {
        base: Option<u64>,
        id: u128,
        version: u64,
    },
    /// The store failed at this spot.
    Fault {
        spot: Spot,
    },
    /// Memory ran out.
    Memory,
    /// The line, from 1, is no request.
    BadLine {
        at: u64,
        why: LineWhy,
    },
}
