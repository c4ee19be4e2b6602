use action_types::Action;

/// The commits above a version.
#[derive(Drop)]
pub struct Winners {
    /// The last version of the table.
    pub latest: u64,
    /// The actions of each commit, in the order of the versions.
    pub commits: Vec<Vec<Action>>,
}

/// The times of commits.
#[derive(Drop)]
pub struct Times {
    /// The last version of the table.
    pub latest: u64,
    /// The first version whose time is given.
    pub from: u64,
    /// The in-commit timestamps of the versions from there up, at most 100, in milliseconds since 1970 UTC.
    pub times: Vec<i64>,
}
