//! Tests of replay and of times: the state of a list of commits, the time of a next one, the version at a time. There is no code here.
#![tactic(auto)]

#[cfg(test)]
mod replays;
#[cfg(test)]
mod times;
