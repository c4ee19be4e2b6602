//! Tests of the lines of a session, of runs, and of a session beside other callers, whose turns come between its own.
//! There is no code here.
#![tactic(auto)]

#[cfg(test)]
mod others;
#[cfg(test)]
mod races;
#[cfg(test)]
mod replies;
#[cfg(test)]
mod runs;
#[cfg(test)]
mod session_texts;
#[cfg(test)]
mod sessions;
#[cfg(test)]
mod turns;
#[cfg(test)]
mod vectors;
