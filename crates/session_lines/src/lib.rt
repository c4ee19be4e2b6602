//! The lines of a session: requests as they are read, and the texts of replies.
#![tactic(auto)]

mod fault;
mod files;
mod loaded;
mod member;
mod names;
mod op;
mod put;
mod reading;
mod reply;
mod request;
mod text;
mod writing;

pub use fault::{BadLine, LineWhy};
pub use reading::read_request;
pub use reply::Reply;
pub use request::Request;
pub use writing::reply_text;
