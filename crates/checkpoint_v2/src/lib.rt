//! Checkpoint texts: the state of a table at a version, as lines of JSON (Delta protocol, "V2 Spec"), without sidecars.
#![tactic(auto)]

mod fault;
pub mod laws;
mod quick;
mod reading;
mod writing;

pub use fault::BadCheckpoint;
pub use reading::read_checkpoint;
pub use writing::{can_be_written, write_checkpoint};
