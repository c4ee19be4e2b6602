//! Writing a checkpoint.
ghost use Rattle.std.specs.Prelude.{◌≡◌, ◌↔◌, [], ◌∷◌, ◌++◌, IfOk, IsTrue, OnOk, is_some, map, true};
ghost use Rattle.std.specs.Str.{is_utf8};
ghost use Rattle.action_types.specs.declared.actions.Action.TheVariants as action;
ghost use Rattle.action_fields.specs.Tokens.{Puts, data_tokens};
ghost use Rattle.action_json.specs.Commit.{AreWritten};
ghost use Rattle.reconcile.specs.Replay.{Log};
ghost use Rattle.reconcile.specs.Standing.{HasTableOf, protocol_in, meta_in};
ghost use Rattle.reconcile.specs.Standing.{txns_in, domains_in, tombstones_in, files_in};
ghost use Rattle.checkpoint_v2.specs.Canonical.{HasProtocolAndMeta, HasValidFields, Pushes};
ghost use Rattle.checkpoint_v2.specs.Canonical.{canonical_checkpoint, meta_action, metadata_data};
ghost use Rattle.checkpoint_v2.specs.Canonical.{protocol_action, table_actions, version_data, version_line};
ghost use Rattle.checkpoint_v2.specs.Table.{IsCheckpointOf};

use action_fields::{push_add_line, push_line, push_remove_line};
use action_types::{Action, Add, Domain, Remove, Txn};
use json::Writer;
use reconcile::State;
use std::alloc::{AllocError, Global};

/// The canonical checkpoint of this version, from 0, of a state with a protocol and metadata: the line
/// of the version, the protocol, the metadata, the txns by application, the domains by name, the
/// tombstones and then the files, both in the order of files. Each line is canonical and ended by LF.
/// Refused for want of memory alone.
pub fn write_checkpoint(alloc: Global, version: u64, state: &State) -> Result<Vec<u8>, AllocError>
    requires { HasProtocolAndMeta state.now }
    ensures text { IfOk result (λ v. v.items ≡ canonical_checkpoint version state.now) }
    // It is a checkpoint of every log whose table the state has, where the fields of its actions are valid.
    ensures of_logs { (log : Log) → HasTableOf state.now log → HasValidFields log
        → IfOk result (λ v. IsCheckpointOf v.items version log) }
{
    write_lines(alloc, version, state)
}

/// Whether a state has a protocol and metadata, so that it can be written.
pub fn can_be_written(state: &State) -> bool
    ensures { IsTrue result ↔ HasProtocolAndMeta state.now }
{
    has_protocol(state) && has_meta(state)
}

fn has_protocol(state: &State) -> bool
    ensures { result ≡ is_some (protocol_in state.now) }
{
    match state.protocol() {
        None => false,
        Some(_) => true,
    }
}

fn has_meta(state: &State) -> bool
    ensures { result ≡ is_some (meta_in state.now) }
{
    match state.meta() {
        None => false,
        Some(_) => true,
    }
}

#[tactic(auto, unfolding(crate::specs::Canonical::canonical_checkpoint))]
fn write_lines(alloc: Global, version: u64, state: &State) -> Result<Vec<u8>, AllocError>
    ensures text { IfOk result (λ v. v.items ≡ canonical_checkpoint version state.now) }
    ensures utf8 { OnOk result (is_utf8 (version_line version) ≡ true) }
    ensures written { OnOk result (AreWritten (table_actions state.now)) }
{
    let mut text = version_text(alloc, version)?;
    text.push(b'\n')?;
    push_table(alloc, &mut text, state)?;
    Ok(text)
}

#[tactic(auto, using(action_fields::proofs::Tokens::token_laws))]
fn put_metadata(out: &mut Writer, version: u64) -> Result<(), AllocError>
    ensures { Puts result out.old out.new (data_tokens (metadata_data version)) }
{
    out.begin_object()?;
    out.key("version")?;
    out.u64(version)?;
    out.end_object()
}

#[tactic(auto, using(action_fields::proofs::Tokens::token_laws))]
fn put_version(out: &mut Writer, version: u64) -> Result<(), AllocError>
    ensures { Puts result out.old out.new (data_tokens (version_data version)) }
{
    out.begin_object()?;
    out.key("checkpointMetadata")?;
    put_metadata(out, version)?;
    out.end_object()
}

/// The line of the version, without an LF.
fn version_text(alloc: Global, version: u64) -> Result<Vec<u8>, AllocError>
    ensures text { IfOk result (λ v. v.items ≡ version_line version) }
    ensures utf8 { OnOk result (is_utf8 (version_line version) ≡ true) }
{
    let mut writer = Writer::new(Vec::new(alloc));
    put_version(&mut writer, version)?;
    Ok(writer.into_inner())
}

/// Appends the lines of the state's actions. After a refusal a part of them may stand there.
fn push_table(alloc: Global, text: &mut Vec<u8>, state: &State) -> Result<(), AllocError>
    ensures { Pushes result text.old.items text.new.items (table_actions state.now) }
{
    push_protocol(alloc, text, state)?;
    push_meta(alloc, text, state)?;
    push_entries(alloc, text, state)
}

fn push_protocol(alloc: Global, text: &mut Vec<u8>, state: &State) -> Result<(), AllocError>
    ensures { Pushes result text.old.items text.new.items (protocol_action (protocol_in state.now)) }
{
    match state.protocol() {
        None => Ok(()),
        Some(protocol) => push_action(alloc, text, &Action::Protocol(protocol.copy()?)),
    }
}

fn push_meta(alloc: Global, text: &mut Vec<u8>, state: &State) -> Result<(), AllocError>
    ensures { Pushes result text.old.items text.new.items (meta_action (meta_in state.now)) }
{
    match state.meta() {
        None => Ok(()),
        Some(meta) => push_action(alloc, text, &Action::Meta(meta.copy()?)),
    }
}

/// Appends the line of one action.
fn push_action(alloc: Global, text: &mut Vec<u8>, action: &Action) -> Result<(), AllocError>
    ensures { Pushes result text.old.items text.new.items (action.now ∷ []) }
{
    push_line(alloc, text, action)?;
    text.push(b'\n')?;
    Ok(())
}

fn push_entries(alloc: Global, text: &mut Vec<u8>, state: &State) -> Result<(), AllocError>
    ensures { Pushes result text.old.items text.new.items
        (map action.Txn (txns_in state.now) ++ (map action.Domain (domains_in state.now)
        ++ (map action.Remove (tombstones_in state.now) ++ map action.Add (files_in state.now)))) }
{
    push_txns(alloc, text, state)?;
    push_domains(alloc, text, state)?;
    push_files(alloc, text, state)
}

fn push_files(alloc: Global, text: &mut Vec<u8>, state: &State) -> Result<(), AllocError>
    ensures { Pushes result text.old.items text.new.items
        (map action.Remove (tombstones_in state.now) ++ map action.Add (files_in state.now)) }
{
    push_removes(alloc, text, state)?;
    push_adds(alloc, text, state)
}

fn push_txns(alloc: Global, text: &mut Vec<u8>, state: &State) -> Result<(), AllocError>
    ensures { Pushes result text.old.items text.new.items (map action.Txn (txns_in state.now)) }
{
    for txn in state.txns() {
        push_txn(alloc, text, txn)?;
    }
    Ok(())
}

fn push_txn(alloc: Global, text: &mut Vec<u8>, txn: &Txn) -> Result<(), AllocError>
    ensures { Pushes result text.old.items text.new.items (action.Txn txn.now ∷ []) }
{
    push_action(alloc, text, &Action::Txn(txn.copy()?))
}

fn push_domains(alloc: Global, text: &mut Vec<u8>, state: &State) -> Result<(), AllocError>
    ensures { Pushes result text.old.items text.new.items (map action.Domain (domains_in state.now)) }
{
    for domain in state.domains() {
        push_domain(alloc, text, domain)?;
    }
    Ok(())
}

fn push_domain(alloc: Global, text: &mut Vec<u8>, domain: &Domain) -> Result<(), AllocError>
    ensures { Pushes result text.old.items text.new.items (action.Domain domain.now ∷ []) }
{
    push_action(alloc, text, &Action::Domain(domain.copy()?))
}

fn push_removes(alloc: Global, text: &mut Vec<u8>, state: &State) -> Result<(), AllocError>
    ensures { Pushes result text.old.items text.new.items (map action.Remove (tombstones_in state.now)) }
{
    let mut line = Vec::new(alloc);
    for remove in state.tombstones() {
        push_remove(alloc, text, &mut line, remove)?;
    }
    Ok(())
}

/// Appends the line of a tombstone, which is made in `line` in place of what it held: a line that is short is
/// made at less cost at the front of a vector than at the end of a long text.
fn push_remove(
    alloc: Global,
    text: &mut Vec<u8>,
    line: &mut Vec<u8>,
    remove: &Remove,
) -> Result<(), AllocError>
    ensures { Pushes result text.old.items text.new.items (action.Remove remove.now ∷ []) }
{
    line.clear();
    push_remove_line(alloc, line, remove)?;
    line.push(b'\n')?;
    text.extend_from_slice(line.as_slice())?;
    Ok(())
}

fn push_adds(alloc: Global, text: &mut Vec<u8>, state: &State) -> Result<(), AllocError>
    ensures { Pushes result text.old.items text.new.items (map action.Add (files_in state.now)) }
{
    let mut line = Vec::new(alloc);
    for add in state.files() {
        push_add(alloc, text, &mut line, add)?;
    }
    Ok(())
}

/// Appends the line of a file, which is made in `line` as that of a tombstone is.
fn push_add(
    alloc: Global,
    text: &mut Vec<u8>,
    line: &mut Vec<u8>,
    add: &Add,
) -> Result<(), AllocError>
    ensures { Pushes result text.old.items text.new.items (action.Add add.now ∷ []) }
{
    line.clear();
    push_add_line(alloc, line, add)?;
    line.push(b'\n')?;
    text.extend_from_slice(line.as_slice())?;
    Ok(())
}
