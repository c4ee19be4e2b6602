//! Publishing, clearing and draining of a table over any caller (Delta protocol, "Catalog-managed Tables").
#![tactic(auto)]

mod answers;
mod clearing;
mod draining;
mod laws;
mod publishing;

pub use answers::{ClearedAll, DrainError, PublishError, Published};
pub use clearing::clear_all;
pub use draining::drain;
pub use laws::settled_is_published;
pub use publishing::publish_all;
