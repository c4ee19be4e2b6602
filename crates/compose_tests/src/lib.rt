//! Tests of what writes and creates compose. There is no code here.
#![tactic(auto)]

#[cfg(test)]
mod composing;
#[cfg(test)]
mod writes;
