//! Times of commits, by the Delta protocol's in-commit timestamps: the time of the next commit, and the version at a time.
#![tactic(auto)]

mod halving;
mod next;

pub use halving::Halving;
pub use next::{TimeEnd, next_time};
