//! Which lists of actions are commits.
ghost use Rattle.std.specs.Prelude.{◌≡◌, ◌↔◌, [], IsTrue, is_some};
ghost use Rattle.std.specs.List.{list_any};
ghost use Rattle.action_types.specs.Files.{file_of_key};
ghost use Rattle.action_json.specs.Commit.{IsCommit, are_new, begins_with_info, double_of, is_info, is_meta, is_of_app, is_of_domain, is_protocol, mentions};

use action_fields::has_valid_fields;
use action_types::{Action, Key, Name};

/// Whether the list is a commit: it is empty or begins with an `Info`, no file (a path, and the unique id of a vector or none) stands
/// twice among its adds and removes, no application twice among its txns, no domain twice, no `Protocol`, `Meta` or `Info` twice, and
/// each field is one that a reader accepts.
///
/// It takes no memory, so its time grows with the square of the length.
pub fn is_commit(actions: &[Action]) -> bool
    ensures { IsTrue result ↔ IsCommit actions.now }
{
    begins_with_info(actions) && are_new(actions)
}

fn begins_with_info(actions: &[Action]) -> bool
    ensures { result ≡ begins_with_info actions.now }
{
    match actions {
        [] => true,
        [first, ..] => is_info(first),
    }
}

fn are_new(actions: &[Action]) -> bool
    ensures { result ≡ are_new [] actions.now }
{
    for (i, action) in actions.iter().enumerate() {
        if !has_valid_fields(action) || is_double(&actions[..i], action) {
            return false;
        }
    }
    true
}

/// Whether the action has something in common with one before it.
#[tactic(auto, using(crate::proofs::Members::is_some_if_some), unfolding(crate::specs::Commit::double_of))]
fn is_double(before: &[Action], action: &Action) -> bool
    ensures { result ≡ is_some (double_of before.now action.now) }
{
    match action {
        Action::Info(_) => has_info(before),
        Action::Protocol(_) => has_protocol(before),
        Action::Meta(_) => has_meta(before),
        Action::Txn(txn) => has_app(before, &txn.app),
        Action::Domain(domain) => has_domain(before, &domain.domain),
        Action::Remove(remove) => has_file(before, &remove.key()),
        Action::Add(add) => has_file(before, &add.key()),
    }
}

fn has_info(actions: &[Action]) -> bool
    ensures { result ≡ list_any is_info actions.now }
{
    actions.iter().any(|action| is_info(action))
}

fn has_protocol(actions: &[Action]) -> bool
    ensures { result ≡ list_any is_protocol actions.now }
{
    actions.iter().any(|action| is_protocol(action))
}

fn has_meta(actions: &[Action]) -> bool
    ensures { result ≡ list_any is_meta actions.now }
{
    actions.iter().any(|action| is_meta(action))
}

fn has_app(actions: &[Action], app: &Name) -> bool
    ensures { result ≡ list_any (is_of_app app.now) actions.now }
{
    actions.iter().any(|action| is_of_app(app, action))
}

fn has_domain(actions: &[Action], domain: &Name) -> bool
    ensures { result ≡ list_any (is_of_domain domain.now) actions.now }
{
    actions.iter().any(|action| is_of_domain(domain, action))
}

fn has_file(actions: &[Action], file: &Key<'_>) -> bool
    ensures { result ≡ list_any (mentions (file_of_key file.now)) actions.now }
{
    actions.iter().any(|action| mentions(file, action))
}

fn is_info(action: &Action) -> bool
    ensures { result ≡ is_info action.now }
{
    matches!(action, Action::Info(_))
}

fn is_protocol(action: &Action) -> bool
    ensures { result ≡ is_protocol action.now }
{
    matches!(action, Action::Protocol(_))
}

fn is_meta(action: &Action) -> bool
    ensures { result ≡ is_meta action.now }
{
    matches!(action, Action::Meta(_))
}

fn is_of_app(app: &Name, action: &Action) -> bool
    ensures { result ≡ is_of_app app.now action.now }
{
    match action {
        Action::Txn(txn) => txn.app == *app,
        _ => false,
    }
}

fn is_of_domain(domain: &Name, action: &Action) -> bool
    ensures { result ≡ is_of_domain domain.now action.now }
{
    match action {
        Action::Domain(said) => said.domain == *domain,
        _ => false,
    }
}

fn mentions(file: &Key<'_>, action: &Action) -> bool
    ensures { result ≡ mentions (file_of_key file.now) action.now }
{
    match action {
        Action::Remove(remove) => remove.key().is(*file),
        Action::Add(add) => add.key().is(*file),
        _ => false,
    }
}
