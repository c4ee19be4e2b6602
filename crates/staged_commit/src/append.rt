//! What an append composes.
ghost use Rattle.std.specs.Prelude.{◌≡◌, pos, ◌≤ℤ◌, ◌<ℤ◌, ◌∷◌, [], ◌++◌, map, IfErr, IfOk, OnOk};
ghost use Rattle.action_types.specs.declared.actions.Action.TheVariants as act;
ghost use Rattle.action_types.specs.Files.{file_of_add};
ghost use Rattle.commit_timestamps.specs.Times.{next_time as time_after};
ghost use Rattle.reconcile.specs.Replay.{Log};
ghost use Rattle.reconcile.specs.Standing.{StandsFor};
ghost use Rattle.table_rules.specs.Broken.{broken_by};
ghost use Rattle.table_rules.specs.Seen.{seen};
ghost use Rattle.std.specs.List.{position, position_or_len};
ghost use Rattle.staged_commit.specs.Adds.{adds_in_order, is_after, with_add};
ghost use Rattle.staged_commit.specs.Answers.{HasPassed, IsAppended, IsAppendedOn, IsAppendRefused, IsAppendRefusedOn, IsComposedOn, IsJudged, IsRefusedOn};
ghost use Rattle.staged_commit.specs.Composed.{IsAppend, composed_append, txn_for};
ghost use Rattle.staged_commit.specs.Rules.{without_time};

use crate::commit::{Composed, info_at, judged, written};
use crate::fault::ComposeError;
use action_types::{Action, Add, Txn};
use commit_timestamps::next_time;
use conflict_rules::Intent;
use reconcile::State;
use std::alloc::{AllocError, Global};
use table_rules::check_next;

/// The commit of an append to a table in this state, under the id of its staged file, at the next time: the larger of the clock's
/// reading `now`, in milliseconds since 1970 UTC and from 0, and the last commit's time plus one.
///
/// The errors in their order: `Broken` names the first rule that its actions break as the next commit; the one on its time is not
/// among them. `TimeEnd` comes exactly where none is broken and there is no next time, `TooLarge` where none is broken and its text
/// has more bytes than the limit. It composes appends alone, and judges the rule on their number too.
pub fn compose_append(
    alloc: Global,
    state: &State,
    intent: &Intent,
    id: u128,
    now: i64,
    limit: u64,
) -> Result<Composed, ComposeError>
    requires now { pos 0 ≤ℤ now }
    requires append { IsAppend intent.now }
    ensures ok { (log : Log) → StandsFor state.now log → IfOk result (λ c. IsAppended log intent.now id now limit c) }
    ensures err { (log : Log) → StandsFor state.now log → IfErr result (λ e. IsAppendRefused log intent.now id now limit e) }
    // Of the state alone, where no log is known that it stands for.
    ensures limits { IfErr result (λ e. HasPassed limit e) }
{
    compose_on(alloc, state, intent, id, now, limit)
}

/// The same, by what the state says.
fn compose_on(
    alloc: Global,
    state: &State,
    intent: &Intent,
    id: u128,
    now: i64,
    limit: u64,
) -> Result<Composed, ComposeError>
    requires now { pos 0 ≤ℤ now }
    requires append { IsAppend intent.now }
    ensures ok { IfOk result (λ c. IsAppendedOn (seen state.now) intent.now id now limit c) }
    ensures err { IfErr result (λ e. IsAppendRefusedOn (seen state.now) intent.now id now limit e) }
{
    match next_time(state.time(), now) {
        Ok(time) => compose_at(alloc, state, intent, id, time, limit),
        Err(end) => {
            check_at_the_end(alloc, state, intent, id, end.last)?;
            Err(ComposeError::TimeEnd { last: end.last })
        }
    }
}

/// The commit at this time.
fn compose_at(
    alloc: Global,
    state: &State,
    intent: &Intent,
    id: u128,
    time: i64,
    limit: u64,
) -> Result<Composed, ComposeError>
    requires time { pos 0 ≤ℤ time }
    requires append { IsAppend intent.now }
    ensures ok { IfOk result (λ c. IsComposedOn (seen state.now) (composed_append intent.now id time) time limit c) }
    ensures err { IfErr result (λ e. IsRefusedOn (seen state.now) (composed_append intent.now id time) limit e) }
{
    let actions = actions_of(alloc, intent, id, time)?;
    judged(check_next(alloc, state, &actions))?;
    written(alloc, actions, time, limit)
}

/// Whether the commit breaks no rule but the one on its time, which no time after the last one could keep.
fn check_at_the_end(
    alloc: Global,
    state: &State,
    intent: &Intent,
    id: u128,
    last: i64,
) -> Result<(), ComposeError>
    requires { pos 0 <ℤ last }
    ensures { IsJudged result (broken_by (without_time (seen state.now)) (composed_append intent.now id last)) }
{
    let actions = actions_of(alloc, intent, id, last)?;
    let earlier = state.copy()?.with_time(0);
    judged(check_next(alloc, &earlier, &actions))
}

/// The actions of the commit.
#[tactic(auto, unfolding(crate::specs::Composed::composed_append))]
fn actions_of(
    alloc: Global,
    intent: &Intent,
    id: u128,
    time: i64,
) -> Result<Vec<Action>, AllocError>
    ensures { IfOk result (λ v. v.items ≡ composed_append intent.now id time) }
{
    let info = info_at(alloc, id, time)?;
    let txn = txn_of(intent)?;
    let mut actions = Vec::new(alloc);
    actions.push(Action::Info(info))?;
    actions.push(Action::Txn(txn))?;
    pushed(actions, &in_order(alloc, intent.adds.as_slice())?)
}

/// The actions and, after them, an equal file for each of these.
fn pushed(actions: Vec<Action>, adds: &[&Add]) -> Result<Vec<Action>, AllocError>
    ensures { IfOk result (λ v. v.items ≡ actions.items ++ map (λ a. act.Add a.now) adds.now) }
{
    let mut actions = actions;
    for add in adds {
        actions.push(Action::Add(add.copy()?))?;
    }
    Ok(actions)
}

/// The txn of the commit.
fn txn_of(intent: &Intent) -> Result<Txn, AllocError>
    ensures { IfOk result (λ t. t ≡ txn_for intent.now) }
{
    let app = intent.app.copy()?;
    Ok(Txn {
        app,
        updated: None,
        number: intent.number,
    })
}

/// The adds in the order of their files.
fn in_order<'a>(alloc: Global, adds: &'a [Add]) -> Result<Vec<&'a Add>, AllocError>
    ensures { IfOk result (λ v. map (λ a. a.now) v.items ≡ adds_in_order adds.now) }
{
    let mut list = Vec::new(alloc);
    for add in adds {
        put(&mut list, add)?;
    }
    Ok(list)
}

/// Puts an add before the first one of a later file.
fn put<'a>(list: &mut Vec<&'a Add>, add: &'a Add) -> Result<(), AllocError>
    ensures { OnOk result (map (λ a. a.now) list.new.items ≡ with_add add.now (map (λ a. a.now) list.old.items)) }
{
    list.insert(place_of(list.as_slice(), add), add)?;
    Ok(())
}

/// The place of the first add of a later file, or the number of adds.
fn place_of(list: &[&Add], add: &Add) -> usize
    ensures { result ≡ position_or_len (λ a. is_after (file_of_add add.now) a.now) list.now }
{
    first_after(list, add).unwrap_or(list.len())
}

fn first_after(list: &[&Add], add: &Add) -> Option<usize>
    ensures { result ≡ position (λ a. is_after (file_of_add add.now) a.now) list.now }
{
    list.iter().position(|other| is_before(add, other))
}

/// Whether the file of an add is before that of another.
fn is_before(add: &Add, other: &Add) -> bool
    ensures { result ≡ is_after (file_of_add add.now) other.now }
{
    add.key().compare(other.key()).is_lt()
}
