//! The types of fields: a value as a text, a number, a list; `None` where it is of another type.
ghost use Rattle.std.specs.Prelude.{◌≡◌, codes, IfOk, option_map};
ghost use Rattle.json_tree.specs.View.{items_view, members_view, view};
ghost use Rattle.action_fields.specs.Types.{flag, format, from_zero, given, integer, names, options, pairs, pairs_in, path, text, texts_in, value_in};

use action_types::{Format, Name, Names, Pairs};
use json_tree::{Members, Tree};
use std::alloc::{AllocError, Global};

/// The value of a field, where the body has one that is not null.
pub(crate) fn given<'v, 'a>(body: &'v Tree<'a>, name: &str) -> Option<&'v Tree<'a>>
    ensures { option_map (λ v. view v.now) result ≡ given name.now (view body.now) }
{
    match body.get(name) {
        None => None,
        Some(value) => { if value.is_null() { None } else { Some(value) } }
    }
}

/// A string; refused for want of memory alone.
pub(crate) fn text_of(alloc: Global, value: &Tree<'_>) -> Result<Option<Name>, AllocError>
    ensures { IfOk result (λ o. o ≡ text (view value.now)) }
{
    match value.as_str() {
        None => Ok(None),
        Some(found) => Ok(Some(Name::from_str(alloc, found)?)),
    }
}

/// An integer of 64 bits.
pub(crate) fn integer_of(value: &Tree<'_>) -> Option<i64>
    ensures { result ≡ integer (view value.now) }
{
    value.as_i64()
}

/// An integer of 64 bits from 0.
pub(crate) fn from_zero_of(value: &Tree<'_>) -> Option<i64>
    ensures { result ≡ from_zero (view value.now) }
{
    match value.as_i64() {
        None => None,
        Some(number) => if number < 0 { None } else { Some(number) },
    }
}

/// A boolean.
pub(crate) fn flag_of(value: &Tree<'_>) -> Option<bool>
    ensures { result ≡ flag (view value.now) }
{
    value.as_bool()
}

/// A string that is not empty; refused for want of memory alone.
pub(crate) fn path_of(alloc: Global, value: &Tree<'_>) -> Result<Option<Name>, AllocError>
    ensures { IfOk result (λ o. o ≡ path (view value.now)) }
{
    match value.as_str() {
        None => Ok(None),
        Some(found) => {
            if found.is_empty() {
                Ok(None)
            } else {
                Ok(Some(Name::from_str(alloc, found)?))
            }
        }
    }
}

/// An array of strings; refused for want of memory alone.
pub(crate) fn names_of(alloc: Global, value: &Tree<'_>) -> Result<Option<Names>, AllocError>
    ensures { IfOk result (λ o. o ≡ names (view value.now)) }
{
    match value.as_array() {
        None => Ok(None),
        Some(items) => texts_of(alloc, items.as_slice()),
    }
}

fn texts_of(alloc: Global, items: &[Tree<'_>]) -> Result<Option<Names>, AllocError>
    ensures { IfOk result (λ o. o ≡ texts_in (items_view items.now)) }
{
    let mut found = Names::new(alloc);
    for item in items {
        match item.as_str() {
            None => return Ok(None),
            Some(text) => found.push(Name::from_str(alloc, text)?)?,
        }
    }
    Ok(Some(found))
}

/// An object whose values are strings or, where `nulls` holds, nulls; refused for want of memory alone.
pub(crate) fn pairs_of(
    alloc: Global,
    value: &Tree<'_>,
    nulls: bool,
) -> Result<Option<Pairs>, AllocError>
    ensures { IfOk result (λ o. o ≡ pairs nulls (view value.now)) }
{
    match value.as_object() {
        None => Ok(None),
        Some(members) => values_of(alloc, members, nulls),
    }
}

fn values_of(alloc: Global, members: &Members<'_>, nulls: bool) -> Result<Option<Pairs>, AllocError>
    ensures { IfOk result (λ o. o ≡ pairs_in nulls (members_view members.now.entries)) }
{
    let mut found = Pairs::new(alloc);
    for (name, value) in members.iter() {
        match value_of(alloc, value, nulls)? {
            None => return Ok(None),
            Some(text) => found.push(Name::from_str(alloc, name)?, text)?,
        }
    }
    Ok(Some(found))
}

/// A string, or none for a null where `nulls` holds; refused for want of memory alone.
fn value_of(
    alloc: Global,
    value: &Tree<'_>,
    nulls: bool,
) -> Result<Option<Option<Name>>, AllocError>
    ensures { IfOk result (λ o. o ≡ value_in nulls (view value.now)) }
{
    if value.is_null() {
        return Ok(if nulls { Some(None) } else { None });
    }
    match value.as_str() {
        None => Ok(None),
        Some(found) => Ok(Some(Some(Name::from_str(alloc, found)?))),
    }
}

/// The options of a format, none where they are absent; refused for want of memory alone.
fn options_of(alloc: Global, format: &Tree<'_>) -> Result<Option<Pairs>, AllocError>
    ensures { IfOk result (λ o. o ≡ options (given (codes "options") (view format.now))) }
{
    match given(format, "options") {
        None => Ok(Some(Pairs::new(alloc))),
        Some(value) => pairs_of(alloc, value, false),
    }
}

/// An object with a provider and options; refused for want of memory alone.
pub(crate) fn format_of(alloc: Global, value: &Tree<'_>) -> Result<Option<Format>, AllocError>
    ensures { IfOk result (λ o. o ≡ format (view value.now)) }
{
    let provider = match given(value, "provider") {
        None => return Ok(None),
        Some(provider) => text_of(alloc, provider)?,
    };
    let options = options_of(alloc, value)?;
    match (provider, options) {
        (Some(provider), Some(options)) => Ok(Some(Format { provider, options })),
        _ => Ok(None),
    }
}
