//! The rules of a next commit on its first action, its time, its protocol and its metadata.

ghost use Rattle.std.specs.Prelude.{◌≡◌};
ghost use Rattle.std.specs.Option.{option_copied};
ghost use Rattle.table_rules.specs.Broken.{Tells, no_info, no_meta, time_not_after, feature, property, invariants, columns, other_columns};

use crate::Broken;
use crate::features::faulty_feature;
use crate::said::{own_meta, own_protocol, own_time};
use crate::texts::{contains_text, pairs_have};
use action_types::{Action, Meta, Name};
use std::alloc::Global;

/// The first action is a commitInfo.
pub(crate) fn check_info(actions: &[Action]) -> Result<(), Broken>
    ensures { Tells result (no_info actions.now) }
{
    match actions {
        [Action::Info(_), ..] => Ok(()),
        _ => Err(Broken::NoInfo),
    }
}

/// There is a table, or the commit has a protocol and a metaData.
pub(crate) fn check_meta(old: Option<&Meta>, actions: &[Action]) -> Result<(), Broken>
    ensures { Tells result (no_meta (option_copied old.entry) actions.now) }
{
    if old.is_none() && (own_protocol(actions).is_none() || own_meta(actions).is_none()) {
        return Err(Broken::NoMeta);
    }
    Ok(())
}

/// The commit's time is after the last one.
pub(crate) fn check_time(last: Option<i64>, actions: &[Action]) -> Result<(), Broken>
    ensures { Tells result (time_not_after last actions.now) }
{
    if let Some(last) = last
        && let Some(time) = own_time(actions)
        && time <= last
    {
        return Err(Broken::TimeNotAfter { last });
    }
    Ok(())
}

/// The commit's protocol, if it has one, keeps the rules of features.
pub(crate) fn check_features(alloc: Global, actions: &[Action]) -> Result<(), Broken>
    ensures { Tells result (feature actions.now) }
{
    if let Some(protocol) = own_protocol(actions)
        && let Some(name) = faulty_feature(protocol)
    {
        let name = Name::from_str(alloc, name)?;
        return Err(Broken::Feature { name });
    }
    Ok(())
}

/// The commit's metaData, if it has one, turns in-commit timestamps on.
pub(crate) fn check_property(alloc: Global, actions: &[Action]) -> Result<(), Broken>
    ensures { Tells result (property actions.now) }
{
    let name = "delta.enableInCommitTimestamps";
    if let Some(meta) = own_meta(actions)
        && !pairs_have(meta.configuration.as_slice(), name, "true")
    {
        let name = Name::from_str(alloc, name)?;
        return Err(Broken::Property { name });
    }
    Ok(())
}

/// The schema of the commit's metaData, if it has one, does not speak of invariants.
pub(crate) fn check_invariants(actions: &[Action]) -> Result<(), Broken>
    ensures { Tells result (invariants actions.now) }
{
    if let Some(meta) = own_meta(actions)
        && contains_text("delta.invariants", meta.schema.as_str())
    {
        return Err(Broken::Invariants);
    }
    Ok(())
}

/// The commit's metaData, if it has one, has the table's partition columns.
pub(crate) fn check_columns(old: Option<&Meta>, actions: &[Action]) -> Result<(), Broken>
    ensures { Tells result (columns (option_copied old.entry) actions.now) }
{
    if let Some(old) = old
        && let Some(new) = own_meta(actions)
        && new.columns != old.columns
    {
        return Err(Broken::Columns);
    }
    Ok(())
}
