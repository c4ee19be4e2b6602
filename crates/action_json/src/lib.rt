//! Commit texts: reading, testing and writing them.
#![tactic(auto)]

mod checkpoint_line;
mod digests;
mod fault;
pub mod keys;
pub mod laws;
mod line;
mod quick;
mod reading;
mod valid;
mod writing;

pub use action_fields::{BadBody, Kind, push_body, read_body};
pub use checkpoint_line::{CheckpointLine, read_checkpoint_line};
pub use digests::{are_distinct, digest_of};
pub use fault::{BadCommit, BadLine, Why};
pub use reading::{first_line, read_commit};
pub use valid::is_commit;
pub use writing::write_commit;
