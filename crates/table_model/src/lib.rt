//! The model of a table: plain data of its world, what one caller knows, what each turn does and teaches,
//! the trait of a caller's access, and its notes, which take no memory.
#![tactic(auto)]

mod answers;
mod known;
pub mod laws;
mod notes;
mod snapshot;
mod steps;
mod text;
mod told;

pub use answers::{Looked, Spot, Staged, StepFault};
pub use commit_catalog::{Commits, Limits, Ratified, Ratify};
pub use known::{Clearing, Mark, Refusal, Try};
pub use log_names::LogName;
pub use notes::Notes;
pub use object_store::{Bytes, Gone, Put};
pub use snapshot::Snapshot;
pub use steps::Steps;
pub use text::Text;
pub use told::Told;
