//! Tests of checkpoint texts: rows, refusals, and made states that are written, shuffled and read. There is no code here.
#![tactic(auto)]

#[cfg(test)]
mod made;
#[cfg(test)]
mod rows;
