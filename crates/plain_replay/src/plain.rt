// The replay as it is defined: each look-up searches the list of commits from its end. Slow and short; the
// tests compare the state with it.
ghost use Rattle.std.specs.Prelude.{◌≡◌, Some, None, cond, option_map, option_and_then};
ghost use Rattle.std.specs.Option.{option_copied};
ghost use Rattle.action_types.specs.Files.{file_of_key};
ghost use Rattle.reconcile.specs.Keys.{same_name};
ghost use Rattle.plain_replay.specs.Plain.{answers, add_of, remove_of, number_of, domain_of, kept, kept_tombstone, log_of};
ghost use Rattle.reconcile.specs.Replay.{in_log, last_said, live_at, gone_at, txn_at, domain_at, present, protocol_said, protocol_of_log, meta_said, meta_of_log, time_said, time_of_log};

use action_types::{Action, Add, Domain, Key, Meta, Name, Protocol, Remove};

/// What a look-up asks for.
#[derive(Clone, Copy)]
enum Asked<'a> {
    File(Key<'a>),
    App(&'a str),
    Domain(&'a str),
    Protocol,
    Meta,
    Time,
}

fn is_named(name: &Name, asked: &str) -> bool
    ensures { result ≡ same_name asked.now name.now }
{
    asked == name.as_str()
}

fn is_answer(asked: Asked<'_>, action: &Action) -> bool
    ensures { result ≡ answers asked.entry action.now }
{
    match asked {
        Asked::File(key) => match action {
            Action::Add(add) => key.is(add.key()),
            Action::Remove(remove) => key.is(remove.key()),
            _ => false,
        },
        Asked::App(app) => match action {
            Action::Txn(txn) => is_named(&txn.app, app),
            _ => false,
        },
        Asked::Domain(name) => match action {
            Action::Domain(domain) => is_named(&domain.domain, name),
            _ => false,
        },
        Asked::Protocol => matches!(action, Action::Protocol(_)),
        Asked::Meta => matches!(action, Action::Meta(_)),
        Asked::Time => matches!(action, Action::Info(_)),
    }
}

/// The last action of a commit that answers.
fn last_in<'a>(actions: &'a [Action], asked: Asked<'_>) -> Option<&'a Action>
    ensures { option_copied result ≡ last_said (λ a. cond (answers asked.entry a) (Some a) None) actions.now }
{
    for action in actions.iter().rev() {
        if is_answer(asked, action) {
            return Some(action);
        }
    }
    None
}

/// The last action of a list of commits that answers.
fn last<'a>(commits: &'a [Vec<Action>], asked: Asked<'_>) -> Option<&'a Action>
    ensures { option_copied result ≡ in_log (λ a. cond (answers asked.entry a) (Some a) None) (log_of commits.now) }
{
    for commit in commits.iter().rev() {
        let found = last_in(commit.as_slice(), asked);
        if found.is_some() {
            return found;
        }
    }
    None
}

fn as_add(action: Option<&Action>) -> Option<&Add>
    ensures { option_copied result ≡ option_and_then add_of (option_copied action.entry) }
{
    match action {
        Some(Action::Add(add)) => Some(add),
        _ => None,
    }
}

fn as_remove(action: Option<&Action>) -> Option<&Remove>
    ensures { option_copied result ≡ option_and_then remove_of (option_copied action.entry) }
{
    match action {
        Some(Action::Remove(remove)) => Some(remove),
        _ => None,
    }
}

fn as_number(action: Option<&Action>) -> Option<i64>
    ensures { result ≡ option_and_then number_of (option_copied action.entry) }
{
    match action {
        Some(Action::Txn(txn)) => Some(txn.number),
        _ => None,
    }
}

/// The domain of an action, unless it is removed.
fn as_domain(action: Option<&Action>) -> Option<&Domain>
    ensures { option_copied result ≡ option_and_then present (option_and_then domain_of (option_copied action.entry)) }
{
    match action {
        Some(Action::Domain(domain)) if !domain.removed => Some(domain),
        _ => None,
    }
}

fn as_protocol(action: Option<&Action>) -> Option<&Protocol>
    ensures { option_copied result ≡ option_and_then protocol_said (option_copied action.entry) }
{
    match action {
        Some(Action::Protocol(protocol)) => Some(protocol),
        _ => None,
    }
}

fn as_meta(action: Option<&Action>) -> Option<&Meta>
    ensures { option_copied result ≡ option_and_then meta_said (option_copied action.entry) }
{
    match action {
        Some(Action::Meta(meta)) => Some(meta),
        _ => None,
    }
}

fn as_time(action: Option<&Action>) -> Option<i64>
    ensures { result ≡ option_and_then time_said (option_copied action.entry) }
{
    match action {
        Some(Action::Info(info)) => Some(info.time),
        _ => None,
    }
}

/// The live file that a key names, its `change` as it was written.
pub fn live<'a>(commits: &'a [Vec<Action>], key: Key<'_>) -> Option<&'a Add>
    ensures { option_map kept (option_copied result)
        ≡ live_at (file_of_key key.entry) (log_of commits.now) }
{
    as_add(last(commits, Asked::File(key)))
}

/// The tombstone of the file that a key names, its `change` as it was written.
pub fn gone<'a>(commits: &'a [Vec<Action>], key: Key<'_>) -> Option<&'a Remove>
    ensures { option_map kept_tombstone (option_copied result)
        ≡ gone_at (file_of_key key.entry) (log_of commits.now) }
{
    as_remove(last(commits, Asked::File(key)))
}

/// The domain of a name, if there is one that is not removed.
pub fn domain<'a>(commits: &'a [Vec<Action>], name: &str) -> Option<&'a Domain>
    ensures { option_copied result ≡ domain_at name.now (log_of commits.now) }
{
    as_domain(last(commits, Asked::Domain(name)))
}

/// The number that an application wrote last.
pub fn number(commits: &[Vec<Action>], app: &str) -> Option<i64>
    ensures { result ≡ option_map (λ t. t.number) (txn_at app.now (log_of commits.now)) }
{
    as_number(last(commits, Asked::App(app)))
}

/// The protocol of the table.
pub fn protocol(commits: &[Vec<Action>]) -> Option<&Protocol>
    ensures { option_copied result ≡ protocol_of_log (log_of commits.now) }
{
    as_protocol(last(commits, Asked::Protocol))
}

/// The metadata of the table.
pub fn meta(commits: &[Vec<Action>]) -> Option<&Meta>
    ensures { option_copied result ≡ meta_of_log (log_of commits.now) }
{
    as_meta(last(commits, Asked::Meta))
}

/// The in-commit timestamp of the last commit, in milliseconds since 1970 UTC.
pub fn time(commits: &[Vec<Action>]) -> Option<i64>
    ensures { result ≡ time_of_log (log_of commits.now) }
{
    match commits.last() {
        Some(commit) => as_time(last_in(commit.as_slice(), Asked::Time)),
        None => None,
    }
}
