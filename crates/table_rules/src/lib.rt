//! The rules of a next commit of a table: which one a commit breaks first, if any.
//!
//! They are the demands of the Delta protocol on a commit (in-commit timestamps, table features, append-only
//! tables, transaction identifiers, deletion vectors, domain metadata), narrowed to what this project's tables have.
#![tactic(auto)]

ghost use Rattle.std.specs.Prelude.{[]};
ghost use Rattle.reconcile.specs.Replay.{Log};
ghost use Rattle.reconcile.specs.Standing.{StandsFor};
ghost use Rattle.table_rules.specs.Broken.{first_broken, broken_by, Tells};
ghost use Rattle.table_rules.specs.Seen.{seen};

mod broken;
mod contents;
mod features;
mod lookups;
mod next;
mod rules;
mod said;
mod texts;

use action_types::Action;
pub use broken::Broken;
use reconcile::State;
use std::alloc::Global;

/// Whether a commit may be the next one of a table in this state; the error is the first rule that it
/// breaks. A state without metadata is one without a table yet.
pub fn check_next(alloc: Global, state: &State, actions: &[Action]) -> Result<(), Broken>
    ensures in_state { Tells result (broken_by (seen state.now) actions.now) }
    ensures of_log { (log : Log) → StandsFor state.now log → Tells result (first_broken log actions.now) }
{
    next::check_state(alloc, state, actions)
}

/// Whether a commit may be the first one of a table; the error is the first rule that it breaks.
pub fn check_create(alloc: Global, actions: &[Action]) -> Result<(), Broken>
    ensures { Tells result (first_broken [] actions.now) }
{
    let state = State::empty(alloc);
    check_next(alloc, &state, actions)
}
