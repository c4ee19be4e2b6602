//! The calls of the commits API over HTTP: what a request asks for, and what answers it.
#![tactic(auto)]

mod answer;
mod body;
mod call;
mod content;
mod put;
mod reading;
mod target;
#[cfg(test)]
mod tests;
mod text;

pub use answer::{Answer, Entry};
pub use call::{BadCall, Call, Refusal};
pub use content::{Content, Entries};
pub use reading::call_of;
pub use text::answer_body;
