//! Loads of a table over any caller: the snapshot of its last version, of an asked one or of the one at a time, one that
//! was kept brought up to the last version, the times of commits, and the commits above a version.
#![tactic(auto)]

mod above;
mod answers;
mod errors;
mod kept;
mod loads;
mod past;
mod reading;
mod texts;

pub use above::winners;
pub use answers::{Times, Winners};
pub use errors::LoadError;
pub use kept::refresh;
pub use loads::load;
pub use past::{load_at, load_version, times};
pub use table_model::Snapshot;
