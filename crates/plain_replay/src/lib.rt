//! The replay of commits as it is defined, by a search from the end: for comparing a state with it.
#![tactic(auto)]

pub mod plain;
