//! Tests of a table over a store in memory: the world, its one caller, one caller among others, and loads and
//! publications over these callers.
//! There is no code here.
#![tactic(auto)]

#[cfg(test)]
mod among_others;
#[cfg(test)]
mod callers;
#[cfg(test)]
mod kept_and_past;
#[cfg(test)]
mod past_rows;
#[cfg(test)]
mod refreshes;
#[cfg(test)]
mod untold;
#[cfg(test)]
mod worlds;
