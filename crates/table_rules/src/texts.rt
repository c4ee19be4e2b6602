//! Tests on texts, on lists of names and on pairs.

ghost use Rattle.std.specs.Prelude.{◌≡◌};
ghost use Rattle.std.specs.List.{list_all};
ghost use Rattle.table_rules.specs.Texts.{names_have, pairs_name, pairs_are_of, is_text, pairs_have, contains_text};

use action_types::Name;

/// Whether a name stands in a list.
pub(crate) fn names_have(names: &[Name], name: &str) -> bool
    ensures { result ≡ names_have names.now name.now }
{
    names.iter().any(|other| other.as_str() == name)
}

/// Whether the pairs have exactly the names of the list.
pub(crate) fn pairs_are_of(pairs: &[(Name, Option<Name>)], names: &[Name]) -> bool
    ensures { result ≡ pairs_are_of pairs.now names.now }
{
    pairs_in(pairs, names) && names_in(names, pairs)
}

/// Whether each pair has a name of the list.
fn pairs_in(pairs: &[(Name, Option<Name>)], names: &[Name]) -> bool
    ensures { result ≡ list_all (λ pair. names_have names.now pair.0) pairs.now }
{
    pairs.iter().all(|pair| names_have(names, pair.0.as_str()))
}

/// Whether each name of the list is that of a pair.
fn names_in(names: &[Name], pairs: &[(Name, Option<Name>)]) -> bool
    ensures { result ≡ list_all (pairs_name pairs.now) names.now }
{
    names.iter().all(|name| pairs_name(pairs, name.as_str()))
}

/// Whether a name is that of a pair.
fn pairs_name(pairs: &[(Name, Option<Name>)], name: &str) -> bool
    ensures { result ≡ pairs_name pairs.now name.now }
{
    pairs.iter().any(|pair| pair.0.as_str() == name)
}

/// Whether a property has a value.
pub(crate) fn pairs_have(pairs: &[(Name, Option<Name>)], name: &str, value: &str) -> bool
    ensures { result ≡ pairs_have pairs.now name.now value.now }
{
    pairs
        .iter()
        .any(|pair| pair.0.as_str() == name && is_text(value, &pair.1))
}

/// Whether an optional text is there, and is this one.
fn is_text(text: &str, other: &Option<Name>) -> bool
    ensures { result ≡ is_text text.now other.now }
{
    match other {
        None => false,
        Some(other) => other.as_str() == text,
    }
}

/// Whether a part stands somewhere in a text.
pub(crate) fn contains_text(part: &str, text: &str) -> bool
    ensures { result ≡ contains_text part.now text.now }
{
    text.contains(part)
}
