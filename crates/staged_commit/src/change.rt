//! The protocol and the metaData that a change composes.
ghost use Rattle.std.specs.Prelude.{◌≡◌, ◌++◌, IfOk};
ghost use Rattle.std.specs.Option.{option_copied};
ghost use Rattle.reconcile.specs.Replay.{or_else};
ghost use Rattle.staged_commit.specs.Changes.{changed_meta, changes_meta, changes_of, metas_of, protocols_of, text_or};

use crate::features::protocol_with;
use crate::properties::with_properties;
use action_types::{Action, Meta, Name, Names};
use conflict_rules::Change;
use std::alloc::{AllocError, Global};

/// The actions and, after them, a protocol where the change has features, and a metaData where it has another member.
pub(crate) fn with_changes(
    alloc: Global,
    actions: Vec<Action>,
    change: &Option<Change>,
    old: Option<&Meta>,
) -> Result<Vec<Action>, AllocError>
    ensures { IfOk result (λ v. v.items ≡ actions.items ++ changes_of change.now (option_copied old.entry)) }
{
    let Some(change) = change else {
        return Ok(actions);
    };
    let actions = with_protocol(alloc, actions, &change.features)?;
    with_meta(alloc, actions, change, old)
}

fn with_protocol(
    alloc: Global,
    actions: Vec<Action>,
    features: &Option<Names>,
) -> Result<Vec<Action>, AllocError>
    ensures { IfOk result (λ v. v.items ≡ actions.items ++ protocols_of features.now) }
{
    if features.is_none() {
        return Ok(actions);
    }
    let mut actions = actions;
    actions.push(Action::Protocol(protocol_with(alloc, features)?))?;
    Ok(actions)
}

fn with_meta(
    alloc: Global,
    actions: Vec<Action>,
    change: &Change,
    old: Option<&Meta>,
) -> Result<Vec<Action>, AllocError>
    ensures { IfOk result (λ v. v.items ≡ actions.items ++ metas_of change.now (option_copied old.entry)) }
{
    if !changes_meta(change) {
        return Ok(actions);
    }
    let Some(old) = old else {
        return Ok(actions);
    };
    let mut actions = actions;
    actions.push(Action::Meta(changed(alloc, change, old)?))?;
    Ok(actions)
}

/// Whether the change has a member besides features; a configuration without pairs is one.
fn changes_meta(change: &Change) -> bool
    ensures { result ≡ changes_meta change.now }
{
    change.name.is_some()
        || change.description.is_some()
        || change.schema.is_some()
        || change.configuration.is_some()
}

/// The metadata with what the change gives in the place of the old.
fn changed(alloc: Global, change: &Change, old: &Meta) -> Result<Meta, AllocError>
    ensures { IfOk result (λ m. m ≡ changed_meta change.now old.now) }
{
    let configuration = with_properties(alloc, &change.configuration, &old.configuration)?;
    let description = newer(&change.description, &old.description)?;
    let format = old.format.copy()?;
    let id = old.id.copy()?;
    let name = newer(&change.name, &old.name)?;
    let columns = old.columns.copy()?;
    let schema = text_or(&change.schema, &old.schema)?;
    Ok(Meta {
        configuration,
        created: old.created,
        description,
        format,
        id,
        name,
        columns,
        schema,
    })
}

/// A copy of the new text, and of the old one where there is none.
fn newer(new: &Option<Name>, old: &Option<Name>) -> Result<Option<Name>, AllocError>
    ensures { IfOk result (λ n. n ≡ or_else new.now old.now) }
{
    match new {
        Some(new) => Ok(Some(new.copy()?)),
        None => copied(old),
    }
}

fn copied(text: &Option<Name>) -> Result<Option<Name>, AllocError>
    ensures { IfOk result (λ n. n ≡ text.now) }
{
    match text {
        None => Ok(None),
        Some(text) => Ok(Some(text.copy()?)),
    }
}

fn text_or(new: &Option<Name>, old: &Name) -> Result<Name, AllocError>
    ensures { IfOk result (λ n. n ≡ text_or new.now old.now) }
{
    match new {
        Some(new) => new.copy(),
        None => old.copy(),
    }
}
