//! The conflicts of an intended write with the commits that were ratified before it.
#![tactic(auto)]

mod clash;
mod conflict;
mod intent;
mod lists;
mod rules;

pub use clash::{Clash, Lowest, Rule};
pub use conflict::{first_conflict, first_conflict_of, the_lowest_is_named};
pub use intent::{Change, Intent, Level, Reads};
pub use lists::{Adds, Domains, Removes};
