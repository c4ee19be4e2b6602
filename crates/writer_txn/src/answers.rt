/// What a write came to.
#[derive(Clone, Copy, Debug, PartialEq, Eq)]
pub enum Written {
    /// The commit is ratified.
    Committed {
        /// Its version.
        version: u64,
        /// The version of the table against which the request was judged; none for a create.
        base: Option<u64>,
        /// Its in-commit timestamp, in milliseconds since 1970 UTC.
        time: i64,
    },
    /// The table has a number of the application that is at or above the request's: nothing was done.
    Already {
        /// The recorded number.
        recorded: i64,
        /// The last version of the table.
        latest: u64,
    },
}
