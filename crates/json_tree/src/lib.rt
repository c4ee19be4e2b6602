//! JSON values that borrow their text: each name, and each text without escapes, is a part of the line that was read.
#![tactic(auto)]

mod error;
mod number;
mod parse;
mod tree;

pub use error::ParseError;
pub use json::Scratch;
pub use tree::{Members, Tree};
