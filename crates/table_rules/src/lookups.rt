//! The rules of a next commit that look into the table.

ghost use Rattle.std.specs.Prelude.{◌≡◌, option_map};
ghost use Rattle.std.specs.List.{filter_map};
ghost use Rattle.std.specs.Option.{option_copied};
ghost use Rattle.action_types.specs.Files.{file_of_key};
ghost use Rattle.least_names.specs.Least.{least, least_file};
ghost use Rattle.reconcile.specs.Standing.{live_in};
ghost use Rattle.table_rules.specs.Broken.{Tells, late_app, txn_not_after, not_live_file, not_live};
ghost use Rattle.table_rules.specs.Seen.{number_in};

use crate::Broken;
use action_types::{Action, Key, Name};
use least_names::{lesser, lesser_file};
use reconcile::State;
use std::alloc::Global;

/// The application of a txn whose number is at most the recorded one.
fn late_app<'a>(state: &State, action: &'a Action) -> Option<&'a str>
    ensures { option_copied result ≡ late_app (number_in state.now) action.now }
{
    match action {
        Action::Txn(txn) => match state.number(txn.app.as_str()) {
            Some(recorded) if txn.number <= recorded => Some(txn.app.as_str()),
            _ => None,
        },
        _ => None,
    }
}

/// The least application with a late txn.
fn least_late_app<'a>(state: &State, actions: &'a [Action]) -> Option<&'a str>
    ensures { option_copied result ≡ least (filter_map (late_app (number_in state.now)) actions.now) }
{
    let mut best = None;
    for action in actions {
        if let Some(app) = late_app(state, action) {
            best = lesser(best, app);
        }
    }
    best
}

/// The number of each txn is after the recorded one of its application.
pub(crate) fn check_txns(alloc: Global, state: &State, actions: &[Action]) -> Result<(), Broken>
    ensures { Tells result (txn_not_after (number_in state.now) actions.now) }
{
    if let Some(app) = least_late_app(state, actions)
        && let Some(recorded) = state.number(app)
    {
        let app = Name::from_str(alloc, app)?;
        return Err(Broken::TxnNotAfter { app, recorded });
    }
    Ok(())
}

/// The file of a remove, where it is not live.
fn not_live_file<'a>(state: &State, action: &'a Action) -> Option<Key<'a>>
    ensures { option_map file_of_key result ≡ not_live_file (live_in state.now) action.now }
{
    match action {
        Action::Remove(remove) if state.live(remove.key()).is_none() => Some(remove.key()),
        _ => None,
    }
}

/// The least file of the removes whose files are not live.
fn least_not_live_file<'a>(state: &State, actions: &'a [Action]) -> Option<Key<'a>>
    ensures { option_map file_of_key result
        ≡ least_file (filter_map (not_live_file (live_in state.now)) actions.now) }
{
    let mut best = None;
    for action in actions {
        if let Some(file) = not_live_file(state, action) {
            best = lesser_file(best, file);
        }
    }
    best
}

/// Each removed file is live.
pub(crate) fn check_removes(alloc: Global, state: &State, actions: &[Action]) -> Result<(), Broken>
    ensures { Tells result (not_live (live_in state.now) actions.now) }
{
    if let Some(file) = least_not_live_file(state, actions) {
        let path = Name::from_str(alloc, file.path)?;
        let vector = file.id(alloc)?;
        return Err(Broken::NotLive { path, vector });
    }
    Ok(())
}
