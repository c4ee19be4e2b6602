//! Composing the bytes of a commit from what a caller wants done.
#![tactic(auto)]

mod append;
mod change;
mod commit;
mod contents;
mod create;
mod fault;
mod features;
mod laws;
mod properties;
mod text;
mod write;

pub use append::compose_append;
pub use commit::Composed;
pub use conflict_rules::{Adds, Change, Domains, Intent, Level, Reads, Removes};
pub use create::{Create, compose_create, compose_first};
pub use fault::ComposeError;
pub use laws::{
    a_write_stays_within_the_rules, a_write_with_a_later_number_is_a_next_commit,
    an_append_stays_within_the_rules, contents_stand_in_order, files_stand_in_order,
    the_id_of_a_create_does_not_change_its_length, the_id_of_a_write_does_not_change_its_length,
};
pub use write::compose;
