//! The session.
ghost use Rattle.std.specs.Prelude.{◌≡◌, ◌≤◌, IfSome};
ghost use Rattle.lake_io.specs.declared.answers.End.TheVariants as end;
ghost use Rattle.table_model.specs.Knowledge.{IsGrown, IsValid};
ghost use Rattle.table_session.specs.Sessions.{IsCaused, SessionOf};
ghost use Rattle.table_session.specs.Views.{clock_view, ids_view, sink_view, source_view};

use crate::answering::answer;
use crate::hearing::{gets_reply, hear};
use crate::speaking::say;
use lake_io::{Clock, End, Ids, Lines, Sink, Source};
use std::alloc::Global;
use table_model::Steps;

/// One session: each line of the source that is not white space alone gets one reply, in order, and each reply is written whole before the
/// next line is asked for. A line of more than 1,048,576 bytes is refused, whatever it holds.
///
/// It ends with `Done` where the input was read to its end and every reply was written; with `ReadFault` only where the source failed in this
/// call, and with `WriteFault` only where the sink did; with `TooMuch` where the source gave 4,294,967,296 bytes and no line that an LF ends is
/// left of them; with `Memory` where a line or the text of its reply could not be held. A request that meets want of memory is answered so, and
/// the session goes on.
pub fn session<T: Steps, I: Source, O: Sink, C: Clock, U: Ids>(
    caller: &mut T,
    alloc: Global,
    source: &mut I,
    sink: &mut O,
    clock: &mut C,
    ids: &mut U,
) -> End
    // No request of a session publishes, so as many commits may be unpublished as there may be versions.
    requires { IfSome (T.known caller.old).terms (λ t. t.limits.versions ≤ t.limits.unpublished) }
    ensures session { SessionOf T.tells (T.known caller.old) (T.known caller.new)
        (source_view I.tells (I.taken source.old) (I.left source.old)
        (I.taken source.new) (I.left source.new))
        (sink_view O.tells (O.written sink.old) (O.written sink.new))
        (clock_view C.fixed (C.reading clock.old))
        (ids_view (U.differ ids.old) (U.given ids.old) (U.differ ids.new) (U.given ids.new))
        result }
    ensures read_cause { IsCaused (result ≡ end.ReadFault) (I.faults source.old)
        (I.faults source.new) }
    ensures write_cause { IsCaused (result ≡ end.WriteFault) (O.faults sink.old)
        (O.faults sink.new) }
    ensures grows { IsGrown (T.known caller.old) (T.known caller.new) }
    ensures valid { IsValid (T.known caller.new) }
    ensures after { T.after caller.old caller.new }
{
    // The limits are asked for what this call tells alone: the terms are known and the knowledge is valid.
    let _ = caller.limits();
    let mut lines = match Lines::new(alloc) {
        Ok(lines) => lines,
        Err(_) => return End::Memory,
    };
    'lines: for _ in 0..u64::MAX {
        let asked = match hear(&mut lines, source) {
            Ok(asked) => asked,
            Err(end) => return end,
        };
        if !gets_reply(&asked) {
            continue;
        }
        let reply = answer(caller, alloc, clock, ids, &asked);
        match say(alloc, sink, &reply) {
            Ok(()) => {}
            Err(unsaid) => return unsaid.end(),
        }
    }
    End::Memory
}
