//! Whether a commit may be the next one of a table.

ghost use Rattle.std.specs.Prelude.{◌≡◌};
ghost use Rattle.std.specs.Option.{option_copied};
ghost use Rattle.reconcile.specs.Standing.{meta_in, protocol_in};
ghost use Rattle.table_rules.specs.Broken.{Tells, broken_by, broken_start, broken_metadata, broken_files, new_protocol, new_meta};
ghost use Rattle.table_rules.specs.Seen.{seen};

use crate::Broken;
use crate::contents::check_contents;
use crate::lookups::{check_removes, check_txns};
use crate::rules::{
    check_columns, check_features, check_info, check_invariants, check_meta, check_property,
    check_time,
};
use crate::said::{own_meta, own_protocol};
use action_types::{Action, Meta, Protocol};
use reconcile::State;
use std::alloc::Global;

/// The rules that a state and a commit break, the first of them.
#[tactic(auto, using(crate::proofs::Order::order))]
pub(crate) fn check_state(alloc: Global, state: &State, actions: &[Action]) -> Result<(), Broken>
    ensures { Tells result (broken_by (seen state.now) actions.now) }
{
    check_start(state, actions)?;
    check_metadata(alloc, state, actions)?;
    check_files(alloc, state, actions)
}

/// The rules on the first action, on what a first commit has, and on time.
fn check_start(state: &State, actions: &[Action]) -> Result<(), Broken>
    ensures { Tells result (broken_start (seen state.now) actions.now) }
{
    check_info(actions)?;
    check_meta(state.meta(), actions)?;
    check_time(state.time(), actions)
}

/// The rules on the protocol and the metadata.
fn check_metadata(alloc: Global, state: &State, actions: &[Action]) -> Result<(), Broken>
    ensures { Tells result (broken_metadata (seen state.now) actions.now) }
{
    check_features(alloc, actions)?;
    check_property(alloc, actions)?;
    check_invariants(actions)?;
    check_columns(state.meta(), actions)
}

/// The rules on txns, files and domains.
fn check_files(alloc: Global, state: &State, actions: &[Action]) -> Result<(), Broken>
    ensures { Tells result (broken_files (seen state.now) actions.now) }
{
    check_txns(alloc, state, actions)?;
    check_removes(alloc, state, actions)?;
    let protocol = new_protocol(state, actions);
    check_contents(alloc, protocol, new_meta(state, actions), actions)
}

/// The protocol with the commit: its own, else the table's.
fn new_protocol<'a>(state: &'a State, actions: &'a [Action]) -> Option<&'a Protocol>
    ensures { option_copied result ≡ new_protocol (protocol_in state.now) actions.now }
{
    match own_protocol(actions) {
        Some(protocol) => Some(protocol),
        None => state.protocol(),
    }
}

/// The metadata with the commit: its own, else the table's.
fn new_meta<'a>(state: &'a State, actions: &'a [Action]) -> Option<&'a Meta>
    ensures { option_copied result ≡ new_meta (meta_in state.now) actions.now }
{
    match own_meta(actions) {
        Some(meta) => Some(meta),
        None => state.meta(),
    }
}
