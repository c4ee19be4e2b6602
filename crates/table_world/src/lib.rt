//! A table's catalogue and store together, and one caller's access to them.
#![tactic(auto)]

mod solo;
mod store_turns;
pub mod turns;
mod world;

pub use solo::Solo;
pub use table_model::{
    Bytes, Clearing, Commits, Gone, Limits, LogName, Looked, Mark, Notes, Put, Ratified, Ratify,
    Refusal, Spot, Staged, StepFault, Steps, Try,
};
pub use world::{Start, World};
