//! Writing the bodies and the lines of actions, canonically.
ghost use Rattle.std.specs.Prelude.{◌≡◌, ◌++◌, OnErr, OnOk, drop, take, true};
ghost use Rattle.std.specs.Str.{is_utf8};
ghost use Rattle.json.specs.Print.{print};
ghost use Rattle.action_types.specs.declared.actions.Action.TheVariants as action;
ghost use Rattle.action_fields.specs.Canonical.{action_data, action_fields, add_fields, body_data, canonical_body, canonical_line, domain_fields, info_fields, kind_of, meta_fields, protocol_fields, remove_fields, txn_fields, written};
ghost use Rattle.action_fields.specs.Fits.{Fits, FitsIfGiven, HasFittingFields, VectorFitsIfGiven};
ghost use Rattle.action_fields.specs.Tokens.{Puts, data_tokens, fields_tokens};

use crate::kind::kind_of;
use crate::put::{
    put_flag, put_format, put_integer, put_names, put_optional_flag, put_optional_integer,
    put_optional_names, put_optional_pairs, put_optional_text, put_optional_vector, put_pairs,
    put_text,
};
use action_types::{Action, Add, Domain, Info, Meta, Protocol, Remove, Txn};
use json::Writer;
use std::alloc::{AllocError, Global};
use std::mem;

#[tactic(auto, using(crate::proofs::Tokens::token_laws))]
fn put_info(out: &mut Writer, info: &Info) -> Result<(), AllocError>
    ensures puts { Puts result out.old out.new (fields_tokens (info_fields info.now)) }
    ensures fits { OnOk result (HasFittingFields (action.Info info.now)) }
{
    put_integer(out, "inCommitTimestamp", info.time)?;
    put_optional_text(out, "txnId", &info.txn_id)
}

#[tactic(auto, using(crate::proofs::Tokens::token_laws))]
fn put_protocol_front(out: &mut Writer, protocol: &Protocol) -> Result<(), AllocError>
    ensures puts { Puts result out.old out.new (fields_tokens (take 2 (protocol_fields protocol.now))) }
    ensures fits { OnOk result (HasFittingFields (action.Protocol protocol.now)) }
{
    put_integer(out, "minReaderVersion", protocol.reader)?;
    put_integer(out, "minWriterVersion", protocol.writer)
}

#[tactic(auto, using(crate::proofs::Tokens::token_laws))]
fn put_protocol_rest(out: &mut Writer, protocol: &Protocol) -> Result<(), AllocError>
    ensures { Puts result out.old out.new (fields_tokens (drop 2 (protocol_fields protocol.now))) }
{
    put_optional_names(out, "readerFeatures", &protocol.reader_features)?;
    put_optional_names(out, "writerFeatures", &protocol.writer_features)
}

#[tactic(auto, using(crate::proofs::Tokens::token_laws))]
fn put_protocol(out: &mut Writer, protocol: &Protocol) -> Result<(), AllocError>
    ensures puts { Puts result out.old out.new (fields_tokens (protocol_fields protocol.now)) }
    ensures fits { OnOk result (HasFittingFields (action.Protocol protocol.now)) }
{
    put_protocol_front(out, protocol)?;
    put_protocol_rest(out, protocol)
}

#[tactic(auto, using(crate::proofs::Tokens::token_laws))]
fn put_meta_front(out: &mut Writer, meta: &Meta) -> Result<(), AllocError>
    ensures puts { Puts result out.old out.new (fields_tokens (take 4 (meta_fields meta.now))) }
    ensures fits { OnOk result (HasFittingFields (action.Meta meta.now)) }
{
    put_pairs(out, "configuration", &meta.configuration)?;
    put_optional_integer(out, "createdTime", meta.created)?;
    put_optional_text(out, "description", &meta.description)?;
    put_format(out, "format", &meta.format)
}

#[tactic(auto, using(crate::proofs::Tokens::token_laws))]
fn put_meta_rest(out: &mut Writer, meta: &Meta) -> Result<(), AllocError>
    ensures { Puts result out.old out.new (fields_tokens (drop 4 (meta_fields meta.now))) }
{
    put_text(out, "id", &meta.id)?;
    put_optional_text(out, "name", &meta.name)?;
    put_names(out, "partitionColumns", &meta.columns)?;
    put_text(out, "schemaString", &meta.schema)
}

#[tactic(auto, using(crate::proofs::Tokens::token_laws))]
fn put_meta(out: &mut Writer, meta: &Meta) -> Result<(), AllocError>
    ensures puts { Puts result out.old out.new (fields_tokens (meta_fields meta.now)) }
    ensures fits { OnOk result (HasFittingFields (action.Meta meta.now)) }
{
    put_meta_front(out, meta)?;
    put_meta_rest(out, meta)
}

#[tactic(auto, using(crate::proofs::Tokens::token_laws))]
fn put_txn(out: &mut Writer, txn: &Txn) -> Result<(), AllocError>
    ensures puts { Puts result out.old out.new (fields_tokens (txn_fields txn.now)) }
    ensures fits { OnOk result (HasFittingFields (action.Txn txn.now)) }
{
    put_text(out, "appId", &txn.app)?;
    put_optional_integer(out, "lastUpdated", txn.updated)?;
    put_integer(out, "version", txn.number)
}

#[tactic(auto, using(crate::proofs::Tokens::token_laws))]
fn put_domain(out: &mut Writer, domain: &Domain) -> Result<(), AllocError>
    ensures puts { Puts result out.old out.new (fields_tokens (domain_fields domain.now)) }
    ensures fits { OnOk result (HasFittingFields (action.Domain domain.now)) }
{
    put_text(out, "configuration", &domain.configuration)?;
    put_text(out, "domain", &domain.domain)?;
    put_flag(out, "removed", domain.removed)
}

/// A flag that is written where `change` holds.
fn written_flag(flag: bool, change: bool) -> Option<bool>
    ensures { result ≡ written change flag }
{
    if change { Some(flag) } else { None }
}

#[tactic(auto, using(crate::proofs::Tokens::token_laws))]
fn put_remove_front(out: &mut Writer, remove: &Remove, change: bool) -> Result<(), AllocError>
    ensures puts { Puts result out.old out.new (fields_tokens (take 3 (remove_fields change remove.now))) }
    ensures fits { OnOk result (FitsIfGiven remove.now.deleted × VectorFitsIfGiven remove.now.vector) }
{
    put_optional_flag(out, "dataChange", written_flag(remove.change, change))?;
    put_optional_integer(out, "deletionTimestamp", remove.deleted)?;
    put_optional_vector(out, "deletionVector", &remove.vector)?;
    Ok(())
}

#[tactic(auto, using(crate::proofs::Tokens::token_laws))]
fn put_remove_rest(out: &mut Writer, remove: &Remove, change: bool) -> Result<(), AllocError>
    ensures puts { Puts result out.old out.new (fields_tokens (drop 3 (remove_fields change remove.now))) }
    ensures fits { OnOk result (FitsIfGiven remove.now.size) }
{
    put_optional_flag(out, "extendedFileMetadata", remove.extended)?;
    put_optional_pairs(out, "partitionValues", &remove.values)?;
    put_text(out, "path", &remove.path)?;
    put_optional_integer(out, "size", remove.size)?;
    Ok(())
}

#[tactic(auto, using(crate::proofs::Tokens::token_laws))]
pub(crate) fn put_remove(out: &mut Writer, remove: &Remove, change: bool) -> Result<(), AllocError>
    ensures puts { Puts result out.old out.new (fields_tokens (remove_fields change remove.now)) }
    ensures fits { OnOk result (HasFittingFields (action.Remove remove.now)) }
{
    put_remove_front(out, remove, change)?;
    put_remove_rest(out, remove, change)
}

#[tactic(auto, using(crate::proofs::Tokens::token_laws))]
fn put_add_front(out: &mut Writer, add: &Add, change: bool) -> Result<(), AllocError>
    ensures puts { Puts result out.old out.new (fields_tokens (take 4 (add_fields change add.now))) }
    ensures fits { OnOk result (Fits add.now.modified × VectorFitsIfGiven add.now.vector) }
{
    put_optional_flag(out, "dataChange", written_flag(add.change, change))?;
    put_optional_vector(out, "deletionVector", &add.vector)?;
    put_integer(out, "modificationTime", add.modified)?;
    put_pairs(out, "partitionValues", &add.values)?;
    Ok(())
}

#[tactic(auto, using(crate::proofs::Tokens::token_laws))]
fn put_add_rest(out: &mut Writer, add: &Add, change: bool) -> Result<(), AllocError>
    ensures puts { Puts result out.old out.new (fields_tokens (drop 4 (add_fields change add.now))) }
    ensures fits { OnOk result (Fits add.now.size) }
{
    put_text(out, "path", &add.path)?;
    put_integer(out, "size", add.size)?;
    put_optional_text(out, "stats", &add.stats)?;
    put_optional_pairs(out, "tags", &add.tags)
}

#[tactic(auto, using(crate::proofs::Tokens::token_laws))]
pub(crate) fn put_add(out: &mut Writer, add: &Add, change: bool) -> Result<(), AllocError>
    ensures puts { Puts result out.old out.new (fields_tokens (add_fields change add.now)) }
    ensures fits { OnOk result (HasFittingFields (action.Add add.now)) }
{
    put_add_front(out, add, change)?;
    put_add_rest(out, add, change)
}

fn put_fields(out: &mut Writer, action: &Action, change: bool) -> Result<(), AllocError>
    ensures puts { Puts result out.old out.new (fields_tokens (action_fields change action.now)) }
    ensures fits { OnOk result (HasFittingFields action.now) }
{
    match action {
        Action::Info(info) => put_info(out, info),
        Action::Protocol(protocol) => put_protocol(out, protocol),
        Action::Meta(meta) => put_meta(out, meta),
        Action::Txn(txn) => put_txn(out, txn),
        Action::Domain(domain) => put_domain(out, domain),
        Action::Remove(remove) => put_remove(out, remove, change),
        Action::Add(add) => put_add(out, add, change),
    }
}

#[tactic(auto, using(crate::proofs::Tokens::token_laws))]
fn put_body(out: &mut Writer, action: &Action, change: bool) -> Result<(), AllocError>
    ensures puts { Puts result out.old out.new (data_tokens (body_data change action.now)) }
    ensures fits { OnOk result (HasFittingFields action.now) }
{
    out.begin_object()?;
    put_fields(out, action, change)?;
    out.end_object()
}

/// The buffer of the writer; cut back to its first `length` bytes where the writing was refused.
pub(crate) fn finished(
    writer: Writer,
    length: usize,
    done: Result<(), AllocError>,
) -> (Vec<u8>, Result<(), AllocError>)
    ensures ok { OnOk done (result.0.items ≡ writer.before ++ print writer.tokens) }
    ensures err { OnErr done (result.0.items ≡ take length (writer.before ++ print writer.tokens)) }
    ensures same { result.1 ≡ done }
    ensures utf8 { OnOk done (is_utf8 (print writer.tokens) ≡ true) }
{
    let mut bytes = writer.into_inner();
    if done.is_err() {
        bytes.truncate(length);
    }
    (bytes, done)
}

/// Writes the canonical body of the action after what `out` holds: its fields under their JSON names in byte order, an absent one
/// left out, `dataChange` only where `with_change` holds. After a refusal, for want of memory alone, `out` is unchanged.
pub fn push_body(
    alloc: Global,
    out: &mut Vec<u8>,
    action: &Action,
    with_change: bool,
) -> Result<(), AllocError>
    ensures ok { OnOk result (out.new.items ≡ out.old.items ++ canonical_body with_change action.now) }
    ensures err { OnErr result (out.new.items ≡ out.old.items) }
{
    let length = out.len();
    let mut writer = Writer::new(mem::replace(out, Vec::new(alloc)));
    let done = put_body(&mut writer, action, with_change);
    let (bytes, done) = finished(writer, length, done);
    *out = bytes;
    done
}

#[tactic(auto, using(crate::proofs::Tokens::token_laws))]
fn put_line(out: &mut Writer, action: &Action) -> Result<(), AllocError>
    ensures puts { Puts result out.old out.new (data_tokens (action_data action.now)) }
    ensures fits { OnOk result (HasFittingFields action.now) }
{
    let kind = kind_of(action);
    out.begin_object()?;
    out.key(kind.name())?;
    put_body(out, action, true)?;
    out.end_object()
}

/// Writes the canonical line of the action after what `out` holds: an object with the one member of its kind, without an LF.
/// After a refusal, for want of memory alone, `out` is unchanged.
pub fn push_line(alloc: Global, out: &mut Vec<u8>, action: &Action) -> Result<(), AllocError>
    ensures ok { OnOk result (out.new.items ≡ out.old.items ++ canonical_line action.now) }
    ensures err { OnErr result (out.new.items ≡ out.old.items) }
    // What the types of the action see to: its integers have 64 bits, and its texts are UTF-8.
    ensures fits { OnOk result (HasFittingFields action.now) }
    ensures utf8 { OnOk result (is_utf8 (canonical_line action.now) ≡ true) }
{
    let length = out.len();
    let mut writer = Writer::new(mem::replace(out, Vec::new(alloc)));
    let done = put_line(&mut writer, action);
    let (bytes, done) = finished(writer, length, done);
    *out = bytes;
    done
}
