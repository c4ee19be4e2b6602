//! Each rule of conflict.

ghost use Rattle.std.specs.Prelude.{◌≡◌, option_map};
ghost use Rattle.std.specs.List.{list_any, filter_map};
ghost use Rattle.std.specs.Option.{option_copied};
ghost use Rattle.std.specs.Str.{bytes_eq};
ghost use Rattle.action_types.specs.Files.{file_of_key};
ghost use Rattle.least_names.specs.Least.{least, least_file};
ghost use Rattle.reconcile.specs.Standing.{live_in};
ghost use Rattle.conflict_rules.specs.Conflict.{said, at_key, at_file, by_protocol, by_metadata, is_protocol, is_meta, is_remove, is_txn_of, by_transaction, is_removed, removed_twice, by_delete_delete, is_read, read_file, by_delete_read, minds_appends, reads_all, is_serializable, new_file, by_append, has_domain, domain_twice, by_domain};

use crate::clash::{Clash, Rule};
use crate::intent::{Level, Reads};
use action_types::{Action, Domain, Key, Name, Remove};
use least_names::{lesser, lesser_file};
use reconcile::State;

/// The winner has a protocol.
pub(crate) fn by_protocol(winner: &[Action]) -> Option<Clash<'_>>
    ensures { option_map said result ≡ by_protocol winner.now }
{
    if has_protocol(winner) {
        Some(at_key(Rule::Protocol, ""))
    } else {
        None
    }
}

fn has_protocol(winner: &[Action]) -> bool
    ensures { result ≡ list_any is_protocol winner.now }
{
    winner.iter().any(is_protocol)
}

fn is_protocol(action: &Action) -> bool
    ensures { result ≡ is_protocol action.now }
{
    matches!(action, Action::Protocol(_))
}

/// The winner has a metaData.
pub(crate) fn by_metadata(winner: &[Action]) -> Option<Clash<'_>>
    ensures { option_map said result ≡ by_metadata winner.now }
{
    if has_meta(winner) {
        Some(at_key(Rule::Metadata, ""))
    } else {
        None
    }
}

fn has_meta(winner: &[Action]) -> bool
    ensures { result ≡ list_any is_meta winner.now }
{
    winner.iter().any(is_meta)
}

fn is_meta(action: &Action) -> bool
    ensures { result ≡ is_meta action.now }
{
    matches!(action, Action::Meta(_))
}

fn has_remove(winner: &[Action]) -> bool
    ensures { result ≡ list_any is_remove winner.now }
{
    winner.iter().any(is_remove)
}

fn is_remove(action: &Action) -> bool
    ensures { result ≡ is_remove action.now }
{
    matches!(action, Action::Remove(_))
}

/// The winner has a txn of the application.
pub(crate) fn by_transaction<'a>(app: &'a Name, winner: &[Action]) -> Option<Clash<'a>>
    ensures { option_map said result ≡ by_transaction app.now winner.now }
{
    if has_txn_of(app, winner) {
        Some(at_key(Rule::Transaction, app.as_str()))
    } else {
        None
    }
}

fn has_txn_of(app: &Name, winner: &[Action]) -> bool
    ensures { result ≡ list_any (is_txn_of app.now) winner.now }
{
    winner.iter().any(|action| is_txn_of(app, action))
}

fn is_txn_of(app: &Name, action: &Action) -> bool
    ensures { result ≡ is_txn_of app.now action.now }
{
    match action {
        Action::Txn(txn) => txn.app == *app,
        _ => false,
    }
}

/// A rule at a key that is no file.
fn at_key(rule: Rule, key: &str) -> Clash<'_>
    ensures { said result ≡ at_key rule key.now }
{
    Clash {
        rule,
        key,
        vector: None,
    }
}

/// A rule at a file, if there is one.
fn at_file(rule: Rule, file: Option<Key<'_>>) -> Option<Clash<'_>>
    ensures { option_map said result
        ≡ option_map (at_file rule) (option_map file_of_key file.entry) }
{
    match file {
        Some(file) => Some(Clash {
            rule,
            key: file.path,
            vector: file.vector,
        }),
        None => None,
    }
}

/// The winner removes a file that the intent removes.
pub(crate) fn by_delete_delete<'a>(removes: &[Remove], winner: &'a [Action]) -> Option<Clash<'a>>
    ensures { option_map said result ≡ by_delete_delete removes.now winner.now }
{
    at_file(Rule::DeleteDelete, least_removed_twice(removes, winner))
}

fn least_removed_twice<'a>(removes: &[Remove], winner: &'a [Action]) -> Option<Key<'a>>
    ensures { option_map file_of_key result
        ≡ least_file (filter_map (removed_twice removes.now) winner.now) }
{
    let mut best = None;
    for action in winner {
        if let Some(file) = removed_twice(removes, action) {
            best = lesser_file(best, file);
        }
    }
    best
}

fn removed_twice<'a>(removes: &[Remove], action: &'a Action) -> Option<Key<'a>>
    ensures { option_map file_of_key result ≡ removed_twice removes.now action.now }
{
    match action {
        Action::Remove(remove) if is_removed(removes, remove.key()) => Some(remove.key()),
        _ => None,
    }
}

fn is_removed(removes: &[Remove], file: Key) -> bool
    ensures { result ≡ is_removed removes.now (file_of_key file.entry) }
{
    removes.iter().any(|own| file.is(own.key()))
}

/// The winner removes a file that the intent read.
pub(crate) fn by_delete_read<'a>(
    reads: &Reads,
    base: &State,
    winner: &'a [Action],
) -> Option<Clash<'a>>
    ensures { option_map said result ≡ by_delete_read reads.now (live_in base.now) winner.now }
{
    at_file(Rule::DeleteRead, least_read_file(reads, base, winner))
}

fn least_read_file<'a>(reads: &Reads, base: &State, winner: &'a [Action]) -> Option<Key<'a>>
    ensures { option_map file_of_key result
        ≡ least_file (filter_map (read_file reads.now (live_in base.now)) winner.now) }
{
    let mut best = None;
    for action in winner {
        if let Some(file) = read_file(reads, base, action) {
            best = lesser_file(best, file);
        }
    }
    best
}

fn read_file<'a>(reads: &Reads, base: &State, action: &'a Action) -> Option<Key<'a>>
    ensures { option_map file_of_key result ≡ read_file reads.now (live_in base.now) action.now }
{
    match action {
        Action::Remove(remove) if is_read(reads, base, remove) => Some(remove.key()),
        _ => None,
    }
}

fn is_read(reads: &Reads, base: &State, remove: &Remove) -> bool
    ensures { result ≡ is_read reads.now (live_in base.now) remove.now }
{
    match reads {
        Reads::None => false,
        Reads::All => base.live(remove.key()).is_some(),
        Reads::Paths(paths) => names_have(paths.as_slice(), &remove.path),
    }
}

fn names_have(names: &[Name], path: &Name) -> bool
    ensures { result ≡ list_any (λ name. bytes_eq name path.now) names.now }
{
    names.iter().any(|name| name == path)
}

/// The winner adds data to a table that the intent read whole.
pub(crate) fn by_append<'a>(level: Level, reads: &Reads, winner: &'a [Action]) -> Option<Clash<'a>>
    ensures { option_map said result ≡ by_append level reads.now winner.now }
{
    if minds_appends(level, reads, winner) {
        at_file(Rule::Append, least_new_file(winner))
    } else {
        None
    }
}

fn minds_appends(level: Level, reads: &Reads, winner: &[Action]) -> bool
    ensures { result ≡ minds_appends level reads.now winner.now }
{
    reads_all(reads) && (is_serializable(level) || has_remove(winner))
}

fn reads_all(reads: &Reads) -> bool
    ensures { result ≡ reads_all reads.now }
{
    matches!(reads, Reads::All)
}

fn is_serializable(level: Level) -> bool
    ensures { result ≡ is_serializable level }
{
    matches!(level, Level::Serializable)
}

fn least_new_file(winner: &[Action]) -> Option<Key<'_>>
    ensures { option_map file_of_key result ≡ least_file (filter_map new_file winner.now) }
{
    let mut best = None;
    for action in winner {
        if let Some(file) = new_file(action) {
            best = lesser_file(best, file);
        }
    }
    best
}

fn new_file(action: &Action) -> Option<Key<'_>>
    ensures { option_map file_of_key result ≡ new_file action.now }
{
    match action {
        Action::Add(add) if add.change => Some(add.key()),
        _ => None,
    }
}

/// The winner has metadata of a domain of which the intent has some.
pub(crate) fn by_domain<'a>(domains: &[Domain], winner: &'a [Action]) -> Option<Clash<'a>>
    ensures { option_map said result ≡ by_domain domains.now winner.now }
{
    match least_domain_twice(domains, winner) {
        Some(name) => Some(at_key(Rule::Domain, name)),
        None => None,
    }
}

fn least_domain_twice<'a>(domains: &[Domain], winner: &'a [Action]) -> Option<&'a str>
    ensures { option_copied result ≡ least (filter_map (domain_twice domains.now) winner.now) }
{
    let mut best = None;
    for action in winner {
        if let Some(name) = domain_twice(domains, action) {
            best = lesser(best, name);
        }
    }
    best
}

fn domain_twice<'a>(domains: &[Domain], action: &'a Action) -> Option<&'a str>
    ensures { option_copied result ≡ domain_twice domains.now action.now }
{
    match action {
        Action::Domain(domain) if has_domain(domains, &domain.domain) => Some(
            domain.domain.as_str(),
        ),
        _ => None,
    }
}

fn has_domain(domains: &[Domain], name: &Name) -> bool
    ensures { result ≡ has_domain domains.now name.now }
{
    domains.iter().any(|own| own.domain == *name)
}
