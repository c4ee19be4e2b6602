//! A caller of a table among others: between its turns other callers make theirs, as a list says.
#![tactic(auto)]

mod foreign;
mod judging;
mod making;
mod meddler;
mod reading;
mod turns;

pub use foreign::{Foreign, Turn};
pub use meddler::Meddler;
pub use table_model::{
    Bytes, Clearing, Commits, Gone, Limits, LogName, Looked, Mark, Put, Ratified, Ratify, Refusal,
    Spot, Staged, StepFault, Steps, Try,
};
pub use table_world::World;
