//! The top call: a session over a store, from the words of the command line to the status of the program.
#![tactic(auto)]

mod endings;
mod running;
mod settling;
mod words;

pub use endings::{Ended, Status};
pub use running::{LIMITS, run};
pub use words::{Command, USAGE, read_words};
