//! Reading a checkpoint.
ghost use Rattle.std.specs.Prelude.{◌≡◌, ◌↔◌, ℕ, ◌+◌, ◌<◌, ◌^◌, ⊤, List, [], ◌∷◌, ◌++◌, length};
ghost use Rattle.std.specs.Prelude.{None, Some, is_some, MatchOption, Result, IfErr, IfOk, OnOk};
ghost use Rattle.action_types.specs.declared.actions.Action.{Action};
ghost use Rattle.action_fields.specs.Gives.{Fails, Gives};
ghost use Rattle.action_fields.specs.declared.kind.Kind.TheVariants as kind;
ghost use Rattle.action_fields.specs.Canonical.{kind_of};
ghost use Rattle.std.specs.List.{list_any};
ghost use Rattle.action_json.specs.Commit.{double_of, if_some, is_meta, is_protocol};
ghost use Rattle.action_json.specs.Keys.{Knows};
ghost use Rattle.reconcile.specs.Replay.{Log};
ghost use Rattle.reconcile.specs.Standing.{HasTableOf, time_in};
ghost use Rattle.checkpoint_v2.specs.Left.{Reads, left};
ghost use Rattle.checkpoint_v2.specs.Outcome.{Read, checked, has_state, outcome, told, unless_double};
ghost use Rattle.checkpoint_v2.specs.Refused.{IsRefusedFor};
ghost use Rattle.checkpoint_v2.specs.Table.{IsCheckpointOf};

use crate::fault::BadCheckpoint;
use crate::quick::read_quickly;
use action_fields::kind_of;
use action_json::keys::Keys;
use action_json::{BadLine, CheckpointLine, Kind, Why, first_line, read_checkpoint_line};
use action_types::{Action, Name};
use json_tree::Scratch;
use reconcile::State;
use std::alloc::Global;

/// The version, if a line has said it, the actions so far, the keys that they name, and the number of the next line.
#[derive(Drop)]
pub(crate) struct Reading {
    version: Option<u64>,
    actions: Vec<Action>,
    keys: Keys,
    number: u64,
}

/// The state of the actions of a checkpoint's bytes, without a time: lines ended by LF in any order,
/// the last LF perhaps missing; blank lines, commitInfo and unknown kinds are passed over.
///
/// `version` is the one that the checkpoint has to be of, from 0.
pub fn read_checkpoint(alloc: Global, version: u64, bytes: &[u8]) -> Result<State, BadCheckpoint>
    // The state of the actions that are read, line by line, or the fault.
    ensures exact { Reads result (outcome version bytes.now) }
    // The bytes are a checkpoint of the logs whose table the state has, and of no others.
    ensures of_logs { IfOk result (λ s. (log : Log) → IsCheckpointOf bytes.now version log ↔ HasTableOf s log) }
    // The fault is one of the bytes, and the first.
    ensures fault { IfErr result (λ e. MatchOption (told e) ⊤ (IsRefusedFor version bytes.now)) }
    // Bytes with a fault are no checkpoint of this version.
    ensures refused { IfErr result (λ e. MatchOption (told e) ⊤ (λ f.
        (log : Log) → ¬ (IsCheckpointOf bytes.now version log))) }
    ensures time { IfOk result (λ s. time_in s ≡ None) }
{
    read_state(alloc, version, bytes)
}

fn read_state(alloc: Global, version: u64, bytes: &[u8]) -> Result<State, BadCheckpoint>
    ensures { Reads result (outcome version bytes.now) }
{
    let actions = read_actions(alloc, version, bytes)?;
    let state = State::empty(alloc).apply_owned(actions)?;
    Ok(state)
}

/// The quick reading where it succeeds; else the one that finds the first fault.
fn read_actions(alloc: Global, version: u64, bytes: &[u8]) -> Result<Vec<Action>, BadCheckpoint>
    ensures { Gives told (λ v. v.items) result (outcome version bytes.now) }
{
    match read_quickly(alloc, bytes)? {
        Some(quick) => checked(version, quick.version, quick.actions),
        None => read_lines(alloc, version, bytes),
    }
}

#[tactic(auto, unfolding(crate::specs::Outcome::outcome))]
fn read_lines(alloc: Global, version: u64, bytes: &[u8]) -> Result<Vec<Action>, BadCheckpoint>
    ensures { Gives told (λ v. v.items) result (outcome version bytes.now) }
{
    let mut reading = Reading {
        version: None,
        actions: Vec::new(alloc),
        keys: Keys::new(alloc),
        number: 1,
    };
    let mut scratch = Scratch::new(alloc);
    let mut rest = bytes;
    while !rest.is_empty() {
        let (line, after) = first_line(rest);
        take_line(alloc, &mut scratch, &mut reading, line)?;
        rest = after;
    }
    checked(version, reading.version, reading.actions)
}

/// The actions of all lines, unless the version is missing or another one, or a protocol or a metaData is missing.
fn checked(
    wanted: u64,
    version: Option<u64>,
    actions: Vec<Action>,
) -> Result<Vec<Action>, BadCheckpoint>
    ensures { Gives told (λ v. v.items) result (checked wanted version actions.items) }
{
    match version {
        None => Err(BadCheckpoint::NoMetadata),
        Some(found) => {
            if found != wanted {
                Err(BadCheckpoint::WrongVersion { found })
            } else if has_state(actions.as_slice()) {
                Ok(actions)
            } else {
                Err(BadCheckpoint::NoState)
            }
        }
    }
}

/// Whether a protocol and a metaData are among the actions.
fn has_state(actions: &[Action]) -> bool
    ensures { result ≡ has_state actions.now }
{
    has_protocol(actions) && has_meta(actions)
}

fn has_protocol(actions: &[Action]) -> bool
    ensures { result ≡ list_any is_protocol actions.now }
{
    actions.iter().any(|action| is_protocol(action))
}

fn has_meta(actions: &[Action]) -> bool
    ensures { result ≡ list_any is_meta actions.now }
{
    actions.iter().any(|action| is_meta(action))
}

fn is_protocol(action: &Action) -> bool
    ensures { result ≡ is_protocol action.now }
{
    matches!(action, Action::Protocol(_))
}

fn is_meta(action: &Action) -> bool
    ensures { result ≡ is_meta action.now }
{
    matches!(action, Action::Meta(_))
}

/// One more line, which leaves the rest of the lines to say what all of them said.
#[tactic(auto, unfolding(crate::specs::Outcome::outcome_from))]
fn take_line<'a>(
    alloc: Global,
    scratch: &'a mut Scratch,
    reading: &mut Reading,
    line: &'a [u8],
) -> Result<(), BadCheckpoint>
    requires room { reading.old.number + 1 < 2 ^ 64 }
    requires knows { Knows reading.old.keys reading.old.actions.items }
    ensures ok { OnOk result ((wanted : ℕ) (ls : List (List ℕ))
        → left wanted reading.old (line.now ∷ ls) ≡ left wanted reading.new ls) }
    ensures err { IfErr result (λ e. (wanted : ℕ) (ls : List (List ℕ))
        → Fails (told e) (left wanted reading.old (line.now ∷ ls))) }
    ensures keeps { OnOk result (Knows reading.new.keys reading.new.actions.items) }
    ensures number { OnOk result (reading.new.number ≡ reading.old.number + 1) }
{
    match read_checkpoint_line(alloc, scratch, line) {
        Ok(CheckpointLine::Blank | CheckpointLine::Unread) => {}
        Ok(CheckpointLine::Says(action)) => take_action(alloc, reading, action)?,
        Ok(CheckpointLine::Version(version)) => take_version(alloc, reading, version)?,
        Ok(CheckpointLine::Sidecar) => {
            return Err(BadCheckpoint::Sidecar {
                line: reading.number,
            });
        }
        Err(BadLine::Because(why)) => {
            return Err(BadCheckpoint::Line {
                line: reading.number,
                why,
            });
        }
        Err(BadLine::Memory) => return Err(BadCheckpoint::Memory),
    }
    reading.number += 1;
    Ok(())
}

/// One more action of the line at hand, unless it names again what an action before it does.
fn take_action(alloc: Global, reading: &mut Reading, action: Action) -> Result<(), BadCheckpoint>
    requires { Knows reading.old.keys reading.old.actions.items }
    ensures new { OnOk result (double_of reading.old.actions.items action ≡ None) }
    ensures err { IfErr result (λ e. (rest : Read) → Fails (told e)
        (unless_double reading.old.number (kind_of action) (double_of reading.old.actions.items action) rest)) }
    ensures actions { OnOk result (reading.new.actions.items ≡ reading.old.actions.items ++ action ∷ []) }
    ensures keeps { OnOk result (Knows reading.new.keys reading.new.actions.items) }
    ensures number { reading.new.number ≡ reading.old.number }
    ensures version { reading.new.version ≡ reading.old.version }
{
    if let Some(key) = reading.keys.add(alloc, &action)? {
        let kind = kind_of(&action);
        return Err(BadCheckpoint::Line {
            line: reading.number,
            why: Why::Double { kind, key },
        });
    }
    reading.actions.push(action)?;
    Ok(())
}

/// The version of the line at hand, unless a line before it says one.
fn take_version(alloc: Global, reading: &mut Reading, version: u64) -> Result<(), BadCheckpoint>
    ensures new { OnOk result (reading.old.version ≡ None) }
    ensures err { IfErr result (λ e. (rest : Read) → Fails (told e)
        (unless_double reading.old.number kind.CheckpointMetadata (if_some (is_some reading.old.version) []) rest)) }
    ensures version { OnOk result (reading.new.version ≡ Some version) }
    ensures actions { reading.new.actions ≡ reading.old.actions }
    ensures keys { reading.new.keys ≡ reading.old.keys }
    ensures number { reading.new.number ≡ reading.old.number }
{
    if reading.version.is_some() {
        let key = Name::from_str(alloc, "")?;
        return Err(BadCheckpoint::Line {
            line: reading.number,
            why: Why::Double {
                kind: Kind::CheckpointMetadata,
                key,
            },
        });
    }
    reading.version = Some(version);
    Ok(())
}
