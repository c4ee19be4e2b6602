//! The bodies of a commit's actions as JSON values: which fields each kind has, how they are read and written, and which
//! actions can be written.
#![tactic(auto)]

mod checkpoint;
mod fault;
mod field;
mod kind;
pub mod laws;
mod put;
mod read;
mod types;
mod valid;
mod vector;
mod write;
mod write_file;

pub use checkpoint::{read_sidecar, read_version};
pub use fault::BadBody;
pub use kind::{Kind, kind_of};
pub use read::read_body;
pub use valid::has_valid_fields;
pub use write::{push_body, push_line};
pub use write_file::{push_add_line, push_remove_line};
