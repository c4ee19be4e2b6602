//! What a write composes.
ghost use Rattle.std.specs.Prelude.{◌≡◌, pos, ◌≤◌, ◌≤ℤ◌, ◌<ℤ◌, length, None, Some, Ok, IfErr, IfOk};
ghost use Rattle.std.specs.List.{insert};
ghost use Rattle.std.specs.Option.{option_copied};
ghost use Rattle.action_json.specs.Commit.{outcome};
ghost use Rattle.action_types.specs.declared.actions.Action.TheVariants as act;
ghost use Rattle.reconcile.specs.Replay.{Log};
ghost use Rattle.reconcile.specs.Standing.{StandsFor, meta_in, time_in};
ghost use Rattle.table_rules.specs.Broken.{after, broken_by, not_after};
ghost use Rattle.table_rules.specs.Seen.{seen};
ghost use Rattle.staged_commit.specs.Answers.{IsJudged};
ghost use Rattle.staged_commit.specs.Composed.{txn_for};
ghost use Rattle.staged_commit.specs.WriteAnswers.{BreaksFirst, Composes, IsComposedAt, IsWrittenAt, JudgesWrite, RefusesAt};
ghost use Rattle.staged_commit.specs.Writes.{IsReadable, front_of};

use crate::change::with_changes;
use crate::commit::{Composed, info_at, judged};
use crate::contents::with_contents;
use crate::fault::ComposeError;
use crate::text::limited;
use action_types::{Action, Meta, Txn};
use commit_timestamps::next_time;
use conflict_rules::Intent;
use reconcile::State;
use std::alloc::{AllocError, Global};
use table_rules::check_next;

/// The commit of a write to a table in this state, under the id of its staged file, at the next time: the larger of the clock's
/// reading `now`, in milliseconds since 1970 UTC and from 0, and the last commit's time plus one.
///
/// The errors in their order: `Broken` names the first rule that its actions break as the next commit, but for those on its time and
/// on its number, which are the caller's to judge. `TimeEnd` comes exactly where none is broken and there is no next time, `TooLarge`
/// where none is broken and its text has more bytes than the limit. `Memory` comes for want of memory alone.
pub fn compose(
    alloc: Global,
    state: &State,
    intent: &Intent,
    id: u128,
    now: i64,
    limit: u64,
) -> Result<Composed, ComposeError>
    requires now { pos 0 ≤ℤ now }
    ensures in_state { Composes (seen state.now) intent.now id now limit result }
    // After every log that the state stands for.
    ensures in_log { (log : Log) → StandsFor state.now log → Composes (after log) intent.now id now limit result }
    // The text of what a request may ask for, of a table whose metadata a commit may have, is read back.
    ensures reads_back { IsReadable (meta_in state.now) intent.now →
        IfOk result (λ c. outcome c.bytes.items ≡ Ok c.actions.items) }
{
    compose_on(alloc, state, intent, id, now, limit)
}

/// The same, by what the state says.
fn compose_on(
    alloc: Global,
    state: &State,
    intent: &Intent,
    id: u128,
    now: i64,
    limit: u64,
) -> Result<Composed, ComposeError>
    requires now { pos 0 ≤ℤ now }
    ensures in_state { Composes (seen state.now) intent.now id now limit result }
    ensures reads_back { IsReadable (meta_in state.now) intent.now →
        IfOk result (λ c. outcome c.bytes.items ≡ Ok c.actions.items) }
{
    match next_time(state.time(), now) {
        Ok(time) => compose_at(alloc, state, intent, id, time, limit),
        Err(end) => {
            check_at_the_end(alloc, state, intent, id, end.last)?;
            Err(ComposeError::TimeEnd { last: end.last })
        }
    }
}

/// The commit at this time, which is after the last one.
fn compose_at(
    alloc: Global,
    state: &State,
    intent: &Intent,
    id: u128,
    time: i64,
    limit: u64,
) -> Result<Composed, ComposeError>
    requires time { pos 0 ≤ℤ time }
    requires later { not_after (time_in state.now) (Some time) ≡ None }
    ensures ok { IfOk result (λ c. IsWrittenAt (seen state.now) intent.now id time limit c) }
    ensures err { IfErr result (λ e. RefusesAt (seen state.now) intent.now id time limit e) }
    ensures reads_back { IsReadable (meta_in state.now) intent.now →
        IfOk result (λ c. outcome c.bytes.items ≡ Ok c.actions.items) }
{
    let actions = actions_at(alloc, state, intent, id, time)?;
    limited(alloc, actions, time, limit)
}

/// The actions of the commit, where they break no rule.
fn actions_at(
    alloc: Global,
    state: &State,
    intent: &Intent,
    id: u128,
    time: i64,
) -> Result<Vec<Action>, ComposeError>
    requires { not_after (time_in state.now) (Some time) ≡ None }
    ensures ok { IfOk result (λ v. IsComposedAt (seen state.now) intent.now id time v.items) }
    ensures err { IfErr result (λ e. JudgesWrite (seen state.now) intent.now e) }
{
    let front = front_of(alloc, state.meta(), intent, id, time)?;
    let place = front.len();
    let actions = with_contents(alloc, front, intent, time)?;
    checked(alloc, state, &actions)?;
    Ok(numbered(actions, place, intent)?)
}

/// Whether the commit breaks no rule but those on its time, which no time after the last one could keep, and on its number.
fn check_at_the_end(
    alloc: Global,
    state: &State,
    intent: &Intent,
    id: u128,
    last: i64,
) -> Result<(), ComposeError>
    requires { pos 0 <ℤ last }
    ensures ok { IfOk result (λ _. BreaksFirst (seen state.now) intent.now None) }
    ensures err { IfErr result (λ e. JudgesWrite (seen state.now) intent.now e) }
{
    let front = front_of(alloc, state.meta(), intent, id, last)?;
    let actions = with_contents(alloc, front, intent, last)?;
    let earlier = state.copy()?.with_time(0);
    checked(alloc, &earlier, &actions)
}

/// Whether the actions break no rule as the next commit.
fn checked(alloc: Global, state: &State, actions: &[Action]) -> Result<(), ComposeError>
    ensures { IsJudged result (broken_by (seen state.now) actions.now) }
{
    judged(check_next(alloc, state, actions))
}

/// The commitInfo, and the protocol and the metaData of a change.
fn front_of(
    alloc: Global,
    old: Option<&Meta>,
    intent: &Intent,
    id: u128,
    time: i64,
) -> Result<Vec<Action>, AllocError>
    ensures { IfOk result (λ v. v.items ≡ front_of (option_copied old.entry) intent.now id time) }
{
    let mut actions = Vec::new(alloc);
    actions.push(Action::Info(info_at(alloc, id, time)?))?;
    with_changes(alloc, actions, &intent.change, old)
}

/// The actions with the txn at this place.
fn numbered(actions: Vec<Action>, place: usize, intent: &Intent) -> Result<Vec<Action>, AllocError>
    requires { place ≤ length actions.items }
    ensures { IfOk result (λ v. v.items ≡ insert actions.items place (act.Txn (txn_for intent.now))) }
{
    let mut actions = actions;
    let app = intent.app.copy()?;
    let txn = Txn {
        app,
        updated: None,
        number: intent.number,
    };
    actions.insert(place, Action::Txn(txn))?;
    Ok(actions)
}
