//! Why a text was not read.
ghost use Rattle.std.specs.Prelude.{◌≡◌};
ghost use Rattle.json_tree.specs.declared.error.ParseError.TheVariants.{Invalid as invalid, Memory};

use std::alloc::{AllocError, AllocFailed};

/// Why a text was not read.
#[derive(Debug, Drop, Clone, Copy, PartialEq, Eq)]
pub enum ParseError {
    /// It is no JSON, nests deeper than 127 levels, or has a number beyond a float of 64 bits or half of a surrogate pair.
    Invalid,
    /// Memory ran out.
    Memory,
}

impl From<json::Invalid> for ParseError {
    ghost from_gives = { λ _ e. e ≡ invalid };

    fn from(_: json::Invalid) -> ParseError {
        ParseError::Invalid
    }
}

impl From<AllocError> for ParseError {
    ghost from_gives = { λ _ e. e ≡ Memory };

    fn from(_: AllocError) -> ParseError {
        ParseError::Memory
    }
}

impl<T: Drop> From<AllocFailed<T>> for ParseError {
    ghost from_gives = { λ _ e. e ≡ Memory };

    fn from(_: AllocFailed<T>) -> ParseError {
        ParseError::Memory
    }
}
