//! Faults of the outside, and how a session ends.

/// A read that failed. It took nothing from the source.
#[derive(Clone, Copy, Debug, PartialEq, Eq)]
pub struct ReadFault;

/// A write that failed. It wrote nothing.
#[derive(Clone, Copy, Debug, PartialEq, Eq)]
pub struct WriteFault;

/// Why a session ended.
#[derive(Clone, Copy, Debug, PartialEq, Eq)]
pub enum End {
    /// Its input ended, and every reply was written.
    Done,
    /// Its source failed.
    ReadFault,
    /// Its sink failed.
    WriteFault,
    /// Its source gave as many bytes as a session reads.
    TooMuch,
    /// Memory ran out where no reply could say so.
    Memory,
}
