//! The fields of a body. A null counts as absent; a value of another type is faulty.
//! An error is `Field` with the name of the field exactly where the field is faulty, or `Memory`.
#![tactic(auto, unfolding(crate::specs::Bodies::required, crate::specs::Bodies::optional, crate::specs::Bodies::or_empty))]

ghost use Rattle.std.specs.Prelude.{true};
ghost use Rattle.json_tree.specs.View.{view};
ghost use Rattle.action_fields.specs.Bodies.{optional, or_empty, or_fault, required, told, vector};
ghost use Rattle.action_fields.specs.Gives.{Gives};
ghost use Rattle.action_fields.specs.Types.{flag, format, from_zero, integer, names, pairs, path, text};

use crate::fault::BadBody;
use crate::types::{
    flag_of, format_of, from_zero_of, given, integer_of, names_of, pairs_of, path_of, text_of,
};
use crate::vector::vector_of;
use action_types::{Format, Name, Names, Pairs, Vector};
use json_tree::Tree;
use std::alloc::Global;

/// What was found, or the fault of the field where nothing was.
pub(crate) fn needed<T: Drop>(alloc: Global, name: &str, found: Option<T>) -> Result<T, BadBody>
    ensures { Gives told (λ x. x) result (or_fault name.now found) }
{
    match found {
        Some(found) => Ok(found),
        None => {
            let field = Name::from_str(alloc, name)?;
            Err(BadBody::Field { field })
        }
    }
}

/// A string that has to be there.
pub(crate) fn required_text(alloc: Global, body: &Tree<'_>, name: &str) -> Result<Name, BadBody>
    ensures { Gives told (λ x. x) result (required text name.now (view body.now)) }
{
    let found = match given(body, name) {
        None => None,
        Some(value) => text_of(alloc, value)?,
    };
    needed(alloc, name, found)
}

/// An integer of 64 bits that has to be there.
pub(crate) fn required_integer(alloc: Global, body: &Tree<'_>, name: &str) -> Result<i64, BadBody>
    ensures { Gives told (λ x. x) result (required integer name.now (view body.now)) }
{
    let found = match given(body, name) {
        None => None,
        Some(value) => integer_of(value),
    };
    needed(alloc, name, found)
}

/// An integer of 64 bits from 0 that has to be there.
pub(crate) fn required_from_zero(alloc: Global, body: &Tree<'_>, name: &str) -> Result<i64, BadBody>
    ensures { Gives told (λ x. x) result (required from_zero name.now (view body.now)) }
{
    let found = match given(body, name) {
        None => None,
        Some(value) => from_zero_of(value),
    };
    needed(alloc, name, found)
}

/// A boolean that has to be there.
pub(crate) fn required_flag(alloc: Global, body: &Tree<'_>, name: &str) -> Result<bool, BadBody>
    ensures { Gives told (λ x. x) result (required flag name.now (view body.now)) }
{
    let found = match given(body, name) {
        None => None,
        Some(value) => flag_of(value),
    };
    needed(alloc, name, found)
}

/// A string that is not empty that has to be there.
pub(crate) fn required_path(alloc: Global, body: &Tree<'_>, name: &str) -> Result<Name, BadBody>
    ensures { Gives told (λ x. x) result (required path name.now (view body.now)) }
{
    let found = match given(body, name) {
        None => None,
        Some(value) => path_of(alloc, value)?,
    };
    needed(alloc, name, found)
}

/// An array of strings that has to be there.
pub(crate) fn required_names(alloc: Global, body: &Tree<'_>, name: &str) -> Result<Names, BadBody>
    ensures { Gives told (λ x. x) result (required names name.now (view body.now)) }
{
    let found = match given(body, name) {
        None => None,
        Some(value) => names_of(alloc, value)?,
    };
    needed(alloc, name, found)
}

/// An object of strings and nulls that has to be there.
pub(crate) fn required_pairs(alloc: Global, body: &Tree<'_>, name: &str) -> Result<Pairs, BadBody>
    ensures { Gives told (λ x. x) result (required (pairs true) name.now (view body.now)) }
{
    let found = match given(body, name) {
        None => None,
        Some(value) => pairs_of(alloc, value, true)?,
    };
    needed(alloc, name, found)
}

/// A format that has to be there.
pub(crate) fn required_format(alloc: Global, body: &Tree<'_>, name: &str) -> Result<Format, BadBody>
    ensures { Gives told (λ x. x) result (required format name.now (view body.now)) }
{
    let found = match given(body, name) {
        None => None,
        Some(value) => format_of(alloc, value)?,
    };
    needed(alloc, name, found)
}

/// A string that may be absent.
pub(crate) fn optional_text(
    alloc: Global,
    body: &Tree<'_>,
    name: &str,
) -> Result<Option<Name>, BadBody>
    ensures { Gives told (λ x. x) result (optional text name.now (view body.now)) }
{
    match given(body, name) {
        None => Ok(None),
        Some(value) => {
            let found = text_of(alloc, value)?;
            Ok(Some(needed(alloc, name, found)?))
        }
    }
}

/// An integer of 64 bits that may be absent.
pub(crate) fn optional_integer(
    alloc: Global,
    body: &Tree<'_>,
    name: &str,
) -> Result<Option<i64>, BadBody>
    ensures { Gives told (λ x. x) result (optional integer name.now (view body.now)) }
{
    match given(body, name) {
        None => Ok(None),
        Some(value) => {
            let found = integer_of(value);
            Ok(Some(needed(alloc, name, found)?))
        }
    }
}

/// An integer of 64 bits from 0 that may be absent.
pub(crate) fn optional_from_zero(
    alloc: Global,
    body: &Tree<'_>,
    name: &str,
) -> Result<Option<i64>, BadBody>
    ensures { Gives told (λ x. x) result (optional from_zero name.now (view body.now)) }
{
    match given(body, name) {
        None => Ok(None),
        Some(value) => {
            let found = from_zero_of(value);
            Ok(Some(needed(alloc, name, found)?))
        }
    }
}

/// A boolean that may be absent.
pub(crate) fn optional_flag(
    alloc: Global,
    body: &Tree<'_>,
    name: &str,
) -> Result<Option<bool>, BadBody>
    ensures { Gives told (λ x. x) result (optional flag name.now (view body.now)) }
{
    match given(body, name) {
        None => Ok(None),
        Some(value) => {
            let found = flag_of(value);
            Ok(Some(needed(alloc, name, found)?))
        }
    }
}

/// An array of strings that may be absent.
pub(crate) fn optional_names(
    alloc: Global,
    body: &Tree<'_>,
    name: &str,
) -> Result<Option<Names>, BadBody>
    ensures { Gives told (λ x. x) result (optional names name.now (view body.now)) }
{
    match given(body, name) {
        None => Ok(None),
        Some(value) => {
            let found = names_of(alloc, value)?;
            Ok(Some(needed(alloc, name, found)?))
        }
    }
}

/// An object of strings and nulls that may be absent.
pub(crate) fn optional_pairs(
    alloc: Global,
    body: &Tree<'_>,
    name: &str,
) -> Result<Option<Pairs>, BadBody>
    ensures { Gives told (λ x. x) result (optional (pairs true) name.now (view body.now)) }
{
    match given(body, name) {
        None => Ok(None),
        Some(value) => {
            let found = pairs_of(alloc, value, true)?;
            Ok(Some(needed(alloc, name, found)?))
        }
    }
}

/// A deletion vector that may be absent.
#[inline(always)]
pub(crate) fn optional_vector(
    alloc: Global,
    body: &Tree<'_>,
    name: &str,
) -> Result<Option<Vector>, BadBody>
    ensures { Gives told (λ x. x) result (optional vector name.now (view body.now)) }
{
    match given(body, name) {
        None => Ok(None),
        Some(value) => {
            let found = vector_of(alloc, value)?;
            Ok(Some(needed(alloc, name, found)?))
        }
    }
}

/// An object of strings, none where it is absent.
pub(crate) fn pairs_or_empty(alloc: Global, body: &Tree<'_>, name: &str) -> Result<Pairs, BadBody>
    ensures { Gives told (λ x. x) result (or_empty name.now (view body.now)) }
{
    match given(body, name) {
        None => Ok(Pairs::new(alloc)),
        Some(value) => {
            let found = pairs_of(alloc, value, false)?;
            needed(alloc, name, found)
        }
    }
}
