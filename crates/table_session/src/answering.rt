//! The reply to a line.
ghost use Rattle.std.specs.Prelude.{◌≡◌, ◌≤◌, IsTrue, IfSome, Ok};
ghost use Rattle.text_lines.specs.Lines.{Numbered};
ghost use Rattle.session_lines.specs.Requests.{IsRequest};
ghost use Rattle.table_model.specs.Knowledge.{IsValid};
ghost use Rattle.writer_txn.specs.Named.{NamesApart};
ghost use Rattle.table_session.specs.Asking.{asked_by};
ghost use Rattle.table_session.specs.Naming.{named_by};
ghost use Rattle.table_session.specs.Moments.{moment};
ghost use Rattle.table_session.specs.Running.{IsRight};
ghost use Rattle.table_session.specs.Hearing.{IsAskedIn};

use crate::hearing::Asked;
use crate::replying::{loaded, refusal, written};
use lake_io::{Clock, Ids};
use session_lines::{LineWhy, Reply, Request, read_request};
use snapshot_load::load;
use std::alloc::Global;
use table_model::Steps;
use writer_txn::{create, write};

/// The reply to a line: to a request what its call answers, to any other line the first reason why it is none, and the reply for want of
/// memory where memory ran out.
pub(crate) fn answer<T: Steps, C: Clock, U: Ids>(
    caller: &mut T,
    alloc: Global,
    clock: &mut C,
    ids: &mut U,
    asked: &Asked,
) -> Reply
    requires { IfSome (T.known caller.old).terms (λ t. t.limits.versions ≤ t.limits.unpublished) }
    ensures right { (line : Numbered) → IsAskedIn line asked.now
        → IsRight T.tells (T.known caller.old)
        (moment line result (T.known caller.new) (C.reading clock.new) (U.last ids.new)) }
    ensures steady { IsTrue C.fixed → C.reading clock.new ≡ C.reading clock.old }
    ensures names { IsTrue (U.differ ids.new)
        → NamesApart (U.differ ids.old) (U.given ids.old) (U.given ids.new) (named_by result).takens
        (T.known caller.old) (T.known caller.new) }
    ensures valid { IsValid (T.known caller.old) → IsValid (T.known caller.new) }
    ensures after { T.after caller.old caller.new }
{
    match asked {
        Asked::TooLong(at) => Reply::BadLine {
            at: *at,
            why: LineWhy::TooLong,
        },
        Asked::Line(line) => match read_request(alloc, &line.text) {
            Ok(request) => fulfil(caller, alloc, clock, ids, &request),
            Err(bad) => refusal(line.number, bad),
        },
    }
}

/// The reply to a request.
fn fulfil<T: Steps, C: Clock, U: Ids>(
    caller: &mut T,
    alloc: Global,
    clock: &mut C,
    ids: &mut U,
    request: &Request,
) -> Reply
    requires roomy { IfSome (T.known caller.old).terms
        (λ t. t.limits.versions ≤ t.limits.unpublished) }
    requires composes { IsRequest request.now }
    ensures right { (line : Numbered) → asked_by line ≡ Ok request.now
        → IsRight T.tells (T.known caller.old)
        (moment line result (T.known caller.new) (C.reading clock.new) (U.last ids.new)) }
    ensures steady { IsTrue C.fixed → C.reading clock.new ≡ C.reading clock.old }
    ensures names { IsTrue (U.differ ids.new)
        → NamesApart (U.differ ids.old) (U.given ids.old) (U.given ids.new) (named_by result).takens
        (T.known caller.old) (T.known caller.new) }
    ensures valid { IsValid (T.known caller.old) → IsValid (T.known caller.new) }
    ensures after { T.after caller.old caller.new }
{
    match request {
        Request::Create(what) => written(create(caller, alloc, clock, ids, what)),
        Request::Write(intent) => written(write(caller, alloc, clock, ids, intent)),
        Request::Load => loaded(load(caller, alloc)),
    }
}
