//! Which actions have fields that a reader accepts.
ghost use Rattle.std.specs.Prelude.{◌≡◌, true};
ghost use Rattle.std.specs.List.{list_all};
ghost use Rattle.std.specs.Option.{option_map_or};
ghost use Rattle.std.specs.Prelude.{is_some};
ghost use Rattle.action_fields.specs.Valid.{are_in_order, are_texts, has_valid_fields, is_from_zero, is_valid_add, is_valid_domain, is_valid_meta, is_valid_remove, is_valid_vector};

use action_types::{Action, Add, Domain, Meta, Name, Pairs, Remove, Vector};

/// Whether each field of the action is one that `read_body` accepts: no negative time or size, no negative number in a deletion
/// vector, no empty path, no domain without a name, and pairs in byte order of their names, each name once, with texts alone in a
/// configuration and in the options of a format.
#[tactic(auto, unfolding(crate::specs::Valid::has_valid_fields))]
pub fn has_valid_fields(action: &Action) -> bool
    ensures { result ≡ has_valid_fields action.now }
{
    match action {
        Action::Info(info) => info.time >= 0,
        Action::Protocol(_) | Action::Txn(_) => true,
        Action::Meta(meta) => is_valid_meta(meta),
        Action::Domain(domain) => is_valid_domain(domain),
        Action::Remove(remove) => is_valid_remove(remove),
        Action::Add(add) => is_valid_add(add),
    }
}

fn is_valid_meta(meta: &Meta) -> bool
    ensures { result ≡ is_valid_meta meta.now }
{
    are_texts(&meta.configuration) && are_texts(&meta.format.options)
}

fn is_valid_domain(domain: &Domain) -> bool
    ensures { result ≡ is_valid_domain domain.now }
{
    !domain.domain.is_empty()
}

fn is_valid_remove(remove: &Remove) -> bool
    ensures { result ≡ is_valid_remove remove.now }
{
    are_optional_in_order(&remove.values)
        && !remove.path.is_empty()
        && is_optional_from_zero(remove.size)
        && is_optional_vector_valid(&remove.vector)
}

fn is_valid_add(add: &Add) -> bool
    ensures { result ≡ is_valid_add add.now }
{
    are_in_order(add.values.as_slice())
        && !add.path.is_empty()
        && add.size >= 0
        && are_optional_in_order(&add.tags)
        && is_optional_vector_valid(&add.vector)
}

fn is_valid_vector(vector: &Vector) -> bool
    ensures { result ≡ is_valid_vector vector.now }
{
    vector.cardinality >= 0 && is_optional_from_zero(vector.offset) && vector.size >= 0
}

fn is_optional_vector_valid(vector: &Option<Vector>) -> bool
    ensures { result ≡ option_map_or is_valid_vector vector.now true }
{
    match vector {
        None => true,
        Some(vector) => is_valid_vector(vector),
    }
}

fn is_optional_from_zero(number: Option<i64>) -> bool
    ensures { result ≡ option_map_or is_from_zero number true }
{
    match number {
        None => true,
        Some(number) => number >= 0,
    }
}

fn are_optional_in_order(pairs: &Option<Pairs>) -> bool
    ensures { result ≡ option_map_or are_in_order pairs.now true }
{
    match pairs {
        None => true,
        Some(pairs) => are_in_order(pairs.as_slice()),
    }
}

fn are_texts(pairs: &Pairs) -> bool
    ensures { result ≡ are_texts pairs.now }
{
    are_in_order(pairs.as_slice()) && have_texts(pairs.as_slice())
}

fn have_texts(pairs: &[(Name, Option<Name>)]) -> bool
    ensures { result ≡ list_all (λ p. is_some p.1) pairs.now }
{
    pairs.iter().all(|pair| pair.1.is_some())
}

fn are_in_order(pairs: &[(Name, Option<Name>)]) -> bool
    ensures { result ≡ are_in_order pairs.now }
{
    let mut rest = pairs;
    while let [first, second, ..] = rest {
        if !first.0.cmp(&second.0).is_lt() {
            return false;
        }
        rest = &rest[1..];
    }
    true
}
