//! Writing a reply.
ghost use Rattle.std.specs.Prelude.{◌≡◌, ◌++◌, Err, MatchResult};
ghost use Rattle.lake_io.specs.Told.{told};
ghost use Rattle.session_lines.specs.Replies.{reply_text_of};
ghost use Rattle.table_session.specs.Sessions.{IsCaused};
ghost use Rattle.table_session.specs.Speaking.{SaidShort, end_of};
ghost use Rattle.table_session.specs.declared.speaking.Unsaid.TheVariants as unsaid;

use lake_io::{End, Sink, put_all};
use session_lines::{Reply, reply_text};
use std::alloc::Global;

/// Why a reply was not written whole.
#[derive(Clone, Copy)]
pub(crate) enum Unsaid {
    /// The sink failed: it lacks at least the last byte.
    Fault,
    /// The text could not be held: nothing of it was written.
    Memory,
}

impl Unsaid {
    /// How the session ends.
    pub(crate) fn end(self) -> End
        ensures { result ≡ end_of self }
    {
        match self {
            Unsaid::Fault => End::WriteFault,
            Unsaid::Memory => End::Memory,
        }
    }
}

/// Writes the text of a reply whole.
pub(crate) fn say<O: Sink>(alloc: Global, sink: &mut O, reply: &Reply) -> Result<(), Unsaid>
    ensures said { MatchResult result
        (λ _. O.written sink.new ≡ O.written sink.old ++ told O.tells (reply_text_of reply.now))
        (λ why. SaidShort O.tells (O.written sink.old) (reply_text_of reply.now) why
        (O.written sink.new)) }
    ensures cause { IsCaused (result ≡ Err unsaid.Fault) (O.faults sink.old) (O.faults sink.new) }
{
    let text = match reply_text(alloc, reply) {
        Ok(text) => text,
        Err(_) => return Err(Unsaid::Memory),
    };
    match put_all(sink, &text) {
        Ok(()) => Ok(()),
        Err(_) => Err(Unsaid::Fault),
    }
}
