// The actions of a Delta commit as plain data, and the texts and lists they hold.
#![tactic(auto)]

mod actions;
mod files;
mod lists;
mod text;

pub use actions::{Action, Add, Domain, Format, Info, Meta, Protocol, Remove, Txn, Vector};
pub use files::Key;
pub use lists::{Names, Pairs};
pub use text::Name;
