//! Scripts of session requests that are made from a number: the same number gives the same script.
#![tactic(auto)]

mod maker;
mod part;
mod request;
mod writing;

pub use writing::script;
