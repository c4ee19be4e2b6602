ghost use Rattle.std.specs.Prelude.{◌≡◌, ◌↔◌, ⊤};
ghost use Rattle.delta_cli.specs.declared.endings.Status.TheVariants as status;
ghost use Rattle.delta_cli.specs.Words.{IsRun};
ghost use Rattle.delta_cli.specs.Endings.{status_in, MatchEnded};
ghost use Rattle.delta_cli.specs.Runs.{HasRun, NotRunBy, run_limits};
ghost use Rattle.table_session.specs.Sessions.{IsCaused};
ghost use Rattle.table_session.specs.Views.{clock_view, ids_view, sink_view, source_view};
ghost use Rattle.table_world.specs.Starting.{IsFresh};

use crate::endings::{Ended, Status};
use crate::settling::settle;
use crate::words::{Command, read_words};
use lake_io::{Clock, Ids, Sink, Source};
use object_store::Store;
use std::alloc::Global;
use table_session::session;
use table_world::{Limits, Solo, Start, World};

/// The limits of a run's table: 1,000,000 versions, as many unpublished, 64 attempts of a write, 16,777,216 bytes of a commit.
pub const LIMITS: Limits = Limits {
    versions: 1_000_000,
    unpublished: 1_000_000,
    attempts: 64,
    bytes: 16_777_216,
};

/// The top call: starts a table over the store, holds a session over it as its one caller, and then publishes, reports and clears all of it.
/// The words are those of the command line, the program's name left out.
///
/// Where no session is begun, nothing was read or written and the store is handed back: status 1 exactly where the words are not `run`, 6 exactly
/// where the folder has a name of the log, 5 where the store failed when its folder was listed, 2 for want of memory. Else the world is handed
/// back: 3 only where the source failed in this call, 4 only where the sink did, 5 only where the store failed in the drain, 8 only where the
/// source gave 4,294,967,296 bytes, 2 for want of memory. With 0 the input was read to its end, every reply was written, and all versions are
/// published and reported.
pub fn run<S: Store, I: Source, O: Sink, C: Clock, U: Ids>(
    alloc: Global,
    words: &[String],
    store: S,
    source: &mut I,
    sink: &mut O,
    clock: &mut C,
    ids: &mut U,
) -> Ended<S>
    ensures usage { status_in result ≡ status.Usage ↔ (¬ (IsRun words.now)) }
    ensures ended { MatchEnded result
        (λ st back. NotRunBy words.now S.tells (S.files store) (S.faults store) (S.faults back) st)
        (λ st world. HasRun run_limits S.tells (S.files store) (S.faults store)
        (source_view I.tells (I.taken source.old) (I.left source.old)
        (I.taken source.new) (I.left source.new))
        (sink_view O.tells (O.written sink.old) (O.written sink.new))
        (clock_view C.fixed (C.reading clock.old))
        (ids_view (U.differ ids.old) (U.given ids.old) (U.differ ids.new) (U.given ids.new))
        st world) }
    ensures untouched { MatchEnded result
        (λ st back. (S.files back ≡ S.files store)
        × (source.new ≡ source.old) × (sink.new ≡ sink.old))
        (λ st world. ⊤) }
    ensures read { IsCaused (status_in result ≡ status.ReadFault) (I.faults source.old)
        (I.faults source.new) }
    ensures write { IsCaused (status_in result ≡ status.WriteFault) (O.faults sink.old)
        (O.faults sink.new) }
{
    let Some(Command::Run) = read_words(words) else {
        return Ended::NotRun {
            status: Status::Usage,
            store,
        };
    };
    match World::start(alloc, store, LIMITS) {
        Ok(world) => hold(alloc, world, source, sink, clock, ids),
        Err(Start::NotEmpty { store, name: _name }) => Ended::NotRun {
            status: Status::NotEmpty,
            store,
        },
        Err(Start::Fault { store }) => Ended::NotRun {
            status: Status::StoreFault,
            store,
        },
        Err(Start::Memory { store }) => Ended::NotRun {
            status: Status::Memory,
            store,
        },
    }
}

/// Holds a session over a table that was just made, and drains it.
fn hold<S: Store, I: Source, O: Sink, C: Clock, U: Ids>(
    alloc: Global,
    world: World<S>,
    source: &mut I,
    sink: &mut O,
    clock: &mut C,
    ids: &mut U,
) -> Ended<S>
    requires { IsFresh LIMITS world.files world.first S.tells world }
    ensures run { MatchEnded result (λ st back. ⊥)
        (λ st after. HasRun LIMITS S.tells world.files world.first
        (source_view I.tells (I.taken source.old) (I.left source.old)
        (I.taken source.new) (I.left source.new))
        (sink_view O.tells (O.written sink.old) (O.written sink.new))
        (clock_view C.fixed (C.reading clock.old))
        (ids_view (U.differ ids.old) (U.given ids.old) (U.differ ids.new) (U.given ids.new))
        st after) }
    ensures usage { ¬ (status_in result ≡ status.Usage) }
    ensures read { IsCaused (status_in result ≡ status.ReadFault) (I.faults source.old)
        (I.faults source.new) }
    ensures write { IsCaused (status_in result ≡ status.WriteFault) (O.faults sink.old)
        (O.faults sink.new) }
{
    let mut solo = Solo::new(world);
    let end = session(&mut solo, alloc, source, sink, clock, ids);
    let status = settle(&mut solo, alloc, end);
    Ended::Ran {
        status,
        world: solo.into_world(),
    }
}
