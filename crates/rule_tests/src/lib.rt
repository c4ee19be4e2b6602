//! Tests of the rules of a next commit, and of the conflicts of a write. There is no code here.
#![tactic(auto)]

#[cfg(test)]
mod conflicts;
#[cfg(test)]
mod rules;
