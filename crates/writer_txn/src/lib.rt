//! The making of a table and writes to it over any caller: each stages its commit and asks the catalogue to ratify it
//! (Delta protocol, "Catalog-managed Tables").
#![tactic(auto)]

mod answers;
mod attempts;
mod creates;
mod errors;
mod proposing;
mod writes;

pub use answers::Written;
pub use creates::create;
pub use errors::WriteError;
pub use writes::write;
