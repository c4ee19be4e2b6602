use crate::answers::{Staged, StepFault};
use crate::text::Text;
use commit_catalog::Ratify;
use log_names::LogName;
use object_store::{Bytes, Gone, Put};
use std::snapshot::Snapshot;

/// All that a caller was told, turn by turn, which only clauses read. It holds the numbers of the last turn, and
/// nothing of the turns before.
#[derive(Drop)]
pub enum Told {
    Nothing,
    Commits(Snapshot<Told>, u64),
    Looked(Snapshot<Told>),
    Listed(Snapshot<Told>, Snapshot<Result<Vec<LogName>, StepFault>>),
    Got(Snapshot<Told>, LogName, Snapshot<Result<Bytes, StepFault>>, bool),
    Staged(Snapshot<Told>, u64, u128, Text, Result<Staged, StepFault>),
    Ratified(Snapshot<Told>, u64, u64, Ratify),
    Published(Snapshot<Told>, u64, Result<Put, StepFault>),
    Reported(Snapshot<Told>, u64),
    Cleared(Snapshot<Told>, u64, u128, Result<Gone, StepFault>),
    /// What a caller that was split off was told at its beginning.
    Split(Snapshot<Told>),
    /// What a caller was told, and what another that was joined into it was told.
    Joined(Snapshot<Told>, Snapshot<Told>),
}
