//! Requests, and why there is none.
ghost use Rattle.std.specs.Prelude.{◌≡◌};
ghost use Rattle.http_wire.specs.declared.request.WireError.TheVariants.{Memory};

use action_types::Name;
use std::alloc::AllocError;

/// A request. Its headers say no more than the length of the body.
#[derive(Drop)]
pub struct Request {
    /// The method, a token.
    pub method: Name,
    /// The request target, as it was written.
    pub target: Name,
    /// The bytes after the head, as many as `Content-Length` says.
    pub body: Vec<u8>,
}

/// Why no request was answered.
#[derive(Clone, Copy, Debug, PartialEq, Eq)]
pub enum WireError {
    /// The bytes are no request that is served. The response has this status.
    Refuse {
        /// 400, 411, 413, 431, 501 or 505.
        status: u16,
    },
    /// The input ended inside a request.
    Cut,
    /// The source failed.
    ReadFault,
    /// The source gave 4,294,967,296 bytes, and no whole request and no refusal is left of them.
    TooMuch,
    /// Memory ran out. What was read is lost.
    Memory,
}

impl From<AllocError> for WireError {
    ghost from_gives = { λ _ e. e ≡ Memory };

    fn from(_error: AllocError) -> WireError {
        WireError::Memory
    }
}
