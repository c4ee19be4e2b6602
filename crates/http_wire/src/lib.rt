//! HTTP/1.1 requests and responses on the wire (RFC 9112).
#![tactic(auto)]

mod front;
mod head;
mod laws;
mod request;
mod response;
mod wire;

pub use laws::{bytes_are_cut_in_one_way, the_request_at_the_front_is_the_first};
pub use request::{Request, WireError};
pub use response::put_response;
pub use wire::{Wire, WireState};
