//! What the actions of one commit say of the whole table.

ghost use Rattle.std.specs.Prelude.{◌≡◌};
ghost use Rattle.std.specs.Option.{option_copied};
ghost use Rattle.reconcile.specs.Replay.{last_said, protocol_said, meta_said, time_said, or_else};

use action_types::{Action, Meta, Protocol};

/// The commit's protocol, if it has one.
pub(crate) fn own_protocol(actions: &[Action]) -> Option<&Protocol>
    ensures { option_copied result ≡ last_said protocol_said actions.now }
{
    let mut last = None;
    for action in actions {
        if let Action::Protocol(protocol) = action {
            last = Some(protocol);
        }
    }
    last
}

/// The commit's metadata, if it has any.
pub(crate) fn own_meta(actions: &[Action]) -> Option<&Meta>
    ensures { option_copied result ≡ last_said meta_said actions.now }
{
    let mut last = None;
    for action in actions {
        if let Action::Meta(meta) = action {
            last = Some(meta);
        }
    }
    last
}

/// The commit's time, if it has one.
pub(crate) fn own_time(actions: &[Action]) -> Option<i64>
    ensures { result ≡ last_said time_said actions.now }
{
    let mut last = None;
    for action in actions {
        if let Action::Info(info) = action {
            last = Some(info.time);
        }
    }
    last
}
