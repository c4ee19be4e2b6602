use reconcile::State;

/// The state of a table at a version.
#[derive(Drop)]
pub struct Snapshot {
    /// The version of the state.
    pub version: u64,
    /// The last version of the table when it was loaded.
    pub latest: u64,
    /// The in-commit timestamp of the version, in milliseconds since 1970 UTC.
    pub time: i64,
    /// What stands after the versions up to this one.
    pub state: State,
}
