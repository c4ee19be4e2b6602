//! The text of the reply Loaded. Each call appends to `out`; after a refusal, for want of memory alone, `out` may hold anything.
ghost use Rattle.std.specs.Prelude.{◌≡◌, ◌++◌, [], ◌∷◌, Bool, true, false, IfOk, OnOk, Some, codes, map};
ghost use Rattle.json.specs.Print.{quoted};
ghost use Rattle.serde_json.specs.Data.{string};
ghost use Rattle.serde_json.specs.Written.{comma_if, compact_text};
ghost use Rattle.action_fields.specs.Canonical.{body_data, integer_data};
ghost use Rattle.reconcile.specs.Standing.{domains_in};
ghost use Rattle.session_lines.specs.Loaded.{early_text, first_members, later_members, member_text, name_text};
ghost use Rattle.session_lines.specs.Replies.{all_domains_data, are_some, count_data, domains_data, end_fields, files_data, gone_data, loaded_data, meta_data, protocol_data, table_fields, txns_data};

use crate::put::{put_count, put_integer, put_text};
use action_fields::push_body;
use action_types::Action;
use json::Writer;
use reconcile::State;
use std::alloc::{AllocError, Global};
use std::mem;

/// The object of the reply.
pub(crate) fn loaded_text(
    alloc: Global,
    latest: u64,
    state: &State,
    time: i64,
    version: u64,
) -> Result<Vec<u8>, AllocError>
    ensures { IfOk result (λ v. v.items ≡ compact_text (loaded_data latest state.now time version)) }
{
    let mut out = Vec::new(alloc);
    push_first(alloc, &mut out, state)?;
    push_table(alloc, &mut out, latest, state)?;
    push_end(alloc, &mut out, state, time, version)?;
    out.push(b'}')?;
    Ok(out)
}

/// The opening brace, the domains where there are some, and the live files.
#[tactic(auto, unfolding(crate::specs::Loaded::first_members), using(action_fields::proofs::Tokens::token_laws))]
fn push_first(alloc: Global, out: &mut Vec<u8>, state: &State) -> Result<(), AllocError>
    ensures { OnOk result (out.new.items ≡ out.old.items ++ first_members (codes "domains") (domains_data state.now) (codes "files") (files_data state.now)) }
{
    out.push(b'{')?;
    push_domains(alloc, out, state)?;
    push_key(alloc, out, "files")?;
    push_files(alloc, out, state)
}

/// The domains and a comma, where there are some.
#[tactic(auto, unfolding(crate::specs::Loaded::early_text), using(action_fields::proofs::Tokens::token_laws))]
fn push_domains(alloc: Global, out: &mut Vec<u8>, state: &State) -> Result<(), AllocError>
    ensures { OnOk result (out.new.items ≡ out.old.items ++ early_text (codes "domains") (domains_data state.now)) }
{
    if !has_domains(state) {
        return Ok(());
    }
    push_key(alloc, out, "domains")?;
    push_each_domain(alloc, out, state)?;
    out.push(b',')?;
    Ok(())
}

/// Whether the state has a domain.
fn has_domains(state: &State) -> bool
    ensures { result ≡ are_some (domains_in state.now) }
{
    let mut domains = state.domains();
    domains.next().is_some()
}

/// The last version, the metadata and the protocol.
#[tactic(auto, using(action_fields::proofs::Tokens::token_laws))]
fn push_table(
    alloc: Global,
    out: &mut Vec<u8>,
    latest: u64,
    state: &State,
) -> Result<(), AllocError>
    ensures { OnOk result (out.new.items ≡ out.old.items ++ later_members (table_fields latest state.now)) }
{
    push_count(alloc, out, "latest", latest)?;
    push_meta(alloc, out, state)?;
    push_protocol(alloc, out, state)
}

/// The tombstones, the name of the reply, the time, the latest txns and the version.
#[tactic(auto, using(action_fields::proofs::Tokens::token_laws))]
fn push_end(
    alloc: Global,
    out: &mut Vec<u8>,
    state: &State,
    time: i64,
    version: u64,
) -> Result<(), AllocError>
    ensures { OnOk result (out.new.items ≡ out.old.items ++ later_members (end_fields state.now time version)) }
{
    push_removed(alloc, out, state)?;
    push_text(alloc, out, "reply", "loaded")?;
    push_integer(alloc, out, "time", time)?;
    push_latest_txns(alloc, out, state)?;
    push_count(alloc, out, "version", version)
}

/// A name and its colon.
fn push_key(alloc: Global, out: &mut Vec<u8>, name: &str) -> Result<(), AllocError>
    ensures { OnOk result (out.new.items ≡ out.old.items ++ (quoted name.now ++ 58 ∷ [])) }
{
    let mut writer = Writer::new(mem::replace(out, Vec::new(alloc)));
    writer.key(name)?;
    *out = writer.into_inner();
    Ok(())
}

/// A comma, a name and its colon.
#[tactic(auto, unfolding(crate::specs::Loaded::name_text), using(action_fields::proofs::Tokens::token_laws))]
fn push_name(alloc: Global, out: &mut Vec<u8>, name: &str) -> Result<(), AllocError>
    ensures { OnOk result (out.new.items ≡ out.old.items ++ name_text name.now) }
{
    out.push(b',')?;
    push_key(alloc, out, name)
}

/// A comma and a member with a number from 0.
fn push_count(alloc: Global, out: &mut Vec<u8>, name: &str, count: u64) -> Result<(), AllocError>
    ensures { OnOk result (out.new.items ≡ out.old.items ++ member_text name.now (Some (count_data count))) }
{
    out.push(b',')?;
    let mut writer = Writer::new(mem::replace(out, Vec::new(alloc)));
    put_count(&mut writer, name, count)?;
    *out = writer.into_inner();
    Ok(())
}

/// A comma and a member with an integer.
fn push_integer(alloc: Global, out: &mut Vec<u8>, name: &str, number: i64) -> Result<(), AllocError>
    ensures { OnOk result (out.new.items ≡ out.old.items ++ member_text name.now (Some (integer_data number))) }
{
    out.push(b',')?;
    let mut writer = Writer::new(mem::replace(out, Vec::new(alloc)));
    put_integer(&mut writer, name, number)?;
    *out = writer.into_inner();
    Ok(())
}

/// A comma and a member with a text.
fn push_text(alloc: Global, out: &mut Vec<u8>, name: &str, text: &str) -> Result<(), AllocError>
    ensures { OnOk result (out.new.items ≡ out.old.items ++ member_text name.now (Some (string text.now))) }
{
    out.push(b',')?;
    let mut writer = Writer::new(mem::replace(out, Vec::new(alloc)));
    put_text(&mut writer, name, text)?;
    *out = writer.into_inner();
    Ok(())
}

/// The metadata of the state, where it has one.
#[tactic(auto, unfolding(crate::specs::Loaded::member_text, action_fields::specs::Canonical::canonical_body), using(action_fields::proofs::Tokens::token_laws))]
fn push_meta(alloc: Global, out: &mut Vec<u8>, state: &State) -> Result<(), AllocError>
    ensures { OnOk result (out.new.items ≡ out.old.items ++ member_text (codes "metaData") (meta_data state.now)) }
{
    match state.meta() {
        None => Ok(()),
        Some(meta) => {
            let action = Action::Meta(meta.copy()?);
            push_name(alloc, out, "metaData")?;
            push_body(alloc, out, &action, true)
        }
    }
}

/// The protocol of the state, where it has one.
#[tactic(auto, unfolding(crate::specs::Loaded::member_text, action_fields::specs::Canonical::canonical_body), using(action_fields::proofs::Tokens::token_laws))]
fn push_protocol(alloc: Global, out: &mut Vec<u8>, state: &State) -> Result<(), AllocError>
    ensures { OnOk result (out.new.items ≡ out.old.items ++ member_text (codes "protocol") (protocol_data state.now)) }
{
    match state.protocol() {
        None => Ok(()),
        Some(protocol) => {
            let action = Action::Protocol(protocol.copy()?);
            push_name(alloc, out, "protocol")?;
            push_body(alloc, out, &action, true)
        }
    }
}

/// A body in an array, with a comma before it where others stand before.
#[tactic(auto, unfolding(action_fields::specs::Canonical::canonical_body), using(action_fields::proofs::Tokens::token_laws))]
fn push_item(
    alloc: Global,
    out: &mut Vec<u8>,
    later: bool,
    action: &Action,
    change: bool,
) -> Result<(), AllocError>
    ensures { OnOk result (out.new.items ≡ out.old.items ++ (comma_if later ++ compact_text (body_data change action.now))) }
{
    if later {
        out.push(b',')?;
    }
    push_body(alloc, out, action, change)
}

/// The live files, without `dataChange`.
fn push_files(alloc: Global, out: &mut Vec<u8>, state: &State) -> Result<(), AllocError>
    ensures { OnOk result (out.new.items ≡ out.old.items ++ compact_text (files_data state.now)) }
{
    out.push(b'[')?;
    let mut later = false;
    for file in state.files() {
        let action = Action::Add(file.copy()?);
        push_item(alloc, out, later, &action, false)?;
        later = true;
    }
    out.push(b']')?;
    Ok(())
}

/// The tombstones, without `dataChange`.
#[tactic(auto, unfolding(crate::specs::Loaded::member_text), using(action_fields::proofs::Tokens::token_laws))]
fn push_removed(alloc: Global, out: &mut Vec<u8>, state: &State) -> Result<(), AllocError>
    ensures { OnOk result (out.new.items ≡ out.old.items ++ member_text (codes "removed") (Some (gone_data state.now))) }
{
    push_name(alloc, out, "removed")?;
    push_tombstones(alloc, out, state)
}

fn push_tombstones(alloc: Global, out: &mut Vec<u8>, state: &State) -> Result<(), AllocError>
    ensures { OnOk result (out.new.items ≡ out.old.items ++ compact_text (gone_data state.now)) }
{
    out.push(b'[')?;
    let mut later = false;
    for file in state.tombstones() {
        let action = Action::Remove(file.copy()?);
        push_item(alloc, out, later, &action, false)?;
        later = true;
    }
    out.push(b']')?;
    Ok(())
}

/// The domains.
fn push_each_domain(alloc: Global, out: &mut Vec<u8>, state: &State) -> Result<(), AllocError>
    ensures { OnOk result (out.new.items ≡ out.old.items ++ compact_text (all_domains_data state.now)) }
{
    out.push(b'[')?;
    let mut later = false;
    for domain in state.domains() {
        let body = Action::Domain(domain.copy()?);
        push_item(alloc, out, later, &body, true)?;
        later = true;
    }
    out.push(b']')?;
    Ok(())
}

/// The latest txns.
#[tactic(auto, unfolding(crate::specs::Loaded::member_text), using(action_fields::proofs::Tokens::token_laws))]
fn push_latest_txns(alloc: Global, out: &mut Vec<u8>, state: &State) -> Result<(), AllocError>
    ensures { OnOk result (out.new.items ≡ out.old.items ++ member_text (codes "txns") (Some (txns_data state.now))) }
{
    push_name(alloc, out, "txns")?;
    push_txns(alloc, out, state)
}

fn push_txns(alloc: Global, out: &mut Vec<u8>, state: &State) -> Result<(), AllocError>
    ensures { OnOk result (out.new.items ≡ out.old.items ++ compact_text (txns_data state.now)) }
{
    out.push(b'[')?;
    let mut later = false;
    for txn in state.txns() {
        let action = Action::Txn(txn.copy()?);
        push_item(alloc, out, later, &action, true)?;
        later = true;
    }
    out.push(b']')?;
    Ok(())
}
