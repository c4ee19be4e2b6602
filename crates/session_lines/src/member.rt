//! The members of a request. A null counts as absent; a value of another type is faulty.
//! An error is `Field` with the name of the member exactly where the member is faulty, or `Memory`.
#![tactic(auto, unfolding(action_fields::specs::Bodies::required, action_fields::specs::Bodies::optional, crate::specs::Members::files_or_none))]

ghost use Rattle.std.specs.Prelude.{◌≡◌, IfOk, option_map};
ghost use Rattle.json_tree.specs.View.{view};
ghost use Rattle.action_fields.specs.Bodies.{or_fault, required};
ghost use Rattle.action_fields.specs.Bodies as bodies;
ghost use Rattle.action_fields.specs.Gives.{Gives};
ghost use Rattle.action_fields.specs.Types.{from_zero, given, path};
ghost use Rattle.std.specs.Prelude.{codes};
ghost use Rattle.table_rules.specs.Texts.{contains_text};
ghost use Rattle.session_lines.specs.Members.{files_or_none, schema};

use crate::files::files_of;
use action_fields::BadBody;
use action_types::Name;
use conflict_rules::Adds;
use json_tree::Tree;
use std::alloc::{AllocError, Global};

/// The value of a member, where the object has one that is not null.
fn given<'v, 'a>(object: &'v Tree<'a>, name: &str) -> Option<&'v Tree<'a>>
    ensures { option_map (λ v. view v.now) result ≡ given name.now (view object.now) }
{
    match object.get(name) {
        None => None,
        Some(value) => if value.is_null() { None } else { Some(value) },
    }
}

/// What was found, or the fault of the member where nothing was.
fn needed<T: Drop>(alloc: Global, name: &str, found: Option<T>) -> Result<T, BadBody>
    ensures { Gives bodies.told (λ x. x) result (or_fault name.now found) }
{
    match found {
        Some(found) => Ok(found),
        None => {
            let field = Name::from_str(alloc, name)?;
            Err(BadBody::Field { field })
        }
    }
}

/// A text that is not empty; refused for want of memory alone.
fn path_of(alloc: Global, value: &Tree<'_>) -> Result<Option<Name>, AllocError>
    ensures { IfOk result (λ o. o ≡ path (view value.now)) }
{
    match value.as_str() {
        None => Ok(None),
        Some(found) => {
            if found.is_empty() {
                Ok(None)
            } else {
                Ok(Some(Name::from_str(alloc, found)?))
            }
        }
    }
}

/// A text that does not speak of invariants; refused for want of memory alone.
fn schema_of(alloc: Global, value: &Tree<'_>) -> Result<Option<Name>, AllocError>
    ensures { IfOk result (λ o. o ≡ schema (view value.now)) }
{
    match value.as_str() {
        None => Ok(None),
        Some(found) => {
            if speaks_of_invariants(found) {
                Ok(None)
            } else {
                Ok(Some(Name::from_str(alloc, found)?))
            }
        }
    }
}

/// Whether the name of the property of invariants stands in the text.
fn speaks_of_invariants(text: &str) -> bool
    ensures { result ≡ contains_text (codes "delta.invariants") text.now }
{
    text.contains("delta.invariants")
}

/// An integer of 64 bits from 0.
fn from_zero_of(value: &Tree<'_>) -> Option<i64>
    ensures { result ≡ from_zero (view value.now) }
{
    match value.as_i64() {
        None => None,
        Some(number) => if number < 0 { None } else { Some(number) },
    }
}

/// A text that is not empty and that has to be there.
pub(crate) fn required_path(alloc: Global, object: &Tree<'_>, name: &str) -> Result<Name, BadBody>
    ensures { Gives bodies.told (λ x. x) result (required path name.now (view object.now)) }
{
    let found = match given(object, name) {
        None => None,
        Some(value) => path_of(alloc, value)?,
    };
    needed(alloc, name, found)
}

/// A text that does not speak of invariants and that has to be there.
pub(crate) fn required_schema(alloc: Global, object: &Tree<'_>, name: &str) -> Result<Name, BadBody>
    ensures { Gives bodies.told (λ x. x) result (required schema name.now (view object.now)) }
{
    let found = match given(object, name) {
        None => None,
        Some(value) => schema_of(alloc, value)?,
    };
    needed(alloc, name, found)
}

/// An integer of 64 bits from 0 that has to be there.
pub(crate) fn required_from_zero(
    alloc: Global,
    object: &Tree<'_>,
    name: &str,
) -> Result<i64, BadBody>
    ensures { Gives bodies.told (λ x. x) result (required from_zero name.now (view object.now)) }
{
    let found = match given(object, name) {
        None => None,
        Some(value) => from_zero_of(value),
    };
    needed(alloc, name, found)
}

/// A list of bodies of `add` in which no file stands twice; none where it is absent.
pub(crate) fn files_or_none(alloc: Global, object: &Tree<'_>, name: &str) -> Result<Adds, BadBody>
    ensures { Gives bodies.told (λ x. x) result (files_or_none name.now (view object.now)) }
{
    match given(object, name) {
        None => Ok(Adds::new(alloc)),
        Some(value) => {
            let found = files_of(alloc, value)?;
            needed(alloc, name, found)
        }
    }
}
