//! The bodies of the kinds that a commit has. The fields are read in byte order of their names, so the first faulty one is the least.
ghost use Rattle.std.specs.Prelude.{IsTrue};
ghost use Rattle.json_tree.specs.View.{view};
ghost use Rattle.action_fields.specs.Bodies.{add, body_of, domain, info, meta, protocol, remove, told, txn};
ghost use Rattle.action_fields.specs.Gives.{Gives};
ghost use Rattle.action_fields.specs.Kinds.{is_action};

use crate::fault::BadBody;
use crate::field::{
    optional_flag, optional_from_zero, optional_integer, optional_names, optional_pairs,
    optional_text, optional_vector, pairs_or_empty, required_flag, required_format,
    required_from_zero, required_integer, required_names, required_pairs, required_path,
    required_text,
};
use crate::kind::Kind;
use action_types::{Action, Add, Domain, Info, Meta, Name, Protocol, Remove, Txn};
use json_tree::Tree;
use std::alloc::Global;

/// The action that a body of this kind says.
///
/// `Field` names the least faulty field in byte order of the names: one that is missing or null where it is needed, or of
/// another type, or out of its range; the empty name stands for a body that is no object. A fault within a deletion vector is the
/// faulty field `deletionVector`. Other fields are passed over.
#[tactic(auto, unfolding(crate::specs::Bodies::body_of))]
pub fn read_body(alloc: Global, kind: Kind, value: &Tree<'_>) -> Result<Action, BadBody>
    requires { IsTrue (is_action kind) }
    ensures { Gives told (λ x. x) result (body_of kind (view value.now)) }
{
    if !value.is_object() {
        let field = Name::from_str(alloc, "")?;
        return Err(BadBody::Field { field });
    }
    match kind {
        Kind::Info => read_info(alloc, value),
        Kind::Protocol => read_protocol(alloc, value),
        Kind::Meta => read_meta(alloc, value),
        Kind::Txn => read_txn(alloc, value),
        Kind::Domain => read_domain(alloc, value),
        Kind::Remove => read_remove(alloc, value),
        Kind::Add => read_add(alloc, value),
        Kind::CheckpointMetadata | Kind::Sidecar => unreachable!(),
    }
}

#[tactic(auto, unfolding(crate::specs::Bodies::info))]
fn read_info(alloc: Global, body: &Tree<'_>) -> Result<Action, BadBody>
    ensures { Gives told (λ x. x) result (info (view body.now)) }
{
    let time = required_from_zero(alloc, body, "inCommitTimestamp")?;
    let txn_id = optional_text(alloc, body, "txnId")?;
    Ok(Action::Info(Info { time, txn_id }))
}

#[tactic(auto, unfolding(crate::specs::Bodies::protocol))]
fn read_protocol(alloc: Global, body: &Tree<'_>) -> Result<Action, BadBody>
    ensures { Gives told (λ x. x) result (protocol (view body.now)) }
{
    let reader = required_integer(alloc, body, "minReaderVersion")?;
    let writer = required_integer(alloc, body, "minWriterVersion")?;
    let reader_features = optional_names(alloc, body, "readerFeatures")?;
    let writer_features = optional_names(alloc, body, "writerFeatures")?;
    Ok(Action::Protocol(Protocol {
        reader,
        writer,
        reader_features,
        writer_features,
    }))
}

#[tactic(auto, unfolding(crate::specs::Bodies::meta))]
fn read_meta(alloc: Global, body: &Tree<'_>) -> Result<Action, BadBody>
    ensures { Gives told (λ x. x) result (meta (view body.now)) }
{
    let configuration = pairs_or_empty(alloc, body, "configuration")?;
    let created = optional_integer(alloc, body, "createdTime")?;
    let description = optional_text(alloc, body, "description")?;
    let format = required_format(alloc, body, "format")?;
    let id = required_text(alloc, body, "id")?;
    let name = optional_text(alloc, body, "name")?;
    let columns = required_names(alloc, body, "partitionColumns")?;
    let schema = required_text(alloc, body, "schemaString")?;
    Ok(Action::Meta(Meta {
        configuration,
        created,
        description,
        format,
        id,
        name,
        columns,
        schema,
    }))
}

#[tactic(auto, unfolding(crate::specs::Bodies::txn))]
fn read_txn(alloc: Global, body: &Tree<'_>) -> Result<Action, BadBody>
    ensures { Gives told (λ x. x) result (txn (view body.now)) }
{
    let app = required_text(alloc, body, "appId")?;
    let updated = optional_integer(alloc, body, "lastUpdated")?;
    let number = required_integer(alloc, body, "version")?;
    Ok(Action::Txn(Txn {
        app,
        updated,
        number,
    }))
}

#[tactic(auto, unfolding(crate::specs::Bodies::domain))]
fn read_domain(alloc: Global, body: &Tree<'_>) -> Result<Action, BadBody>
    ensures { Gives told (λ x. x) result (domain (view body.now)) }
{
    let configuration = required_text(alloc, body, "configuration")?;
    let domain = required_path(alloc, body, "domain")?;
    let removed = required_flag(alloc, body, "removed")?;
    Ok(Action::Domain(Domain {
        configuration,
        domain,
        removed,
    }))
}

#[tactic(auto, unfolding(crate::specs::Bodies::remove))]
fn read_remove(alloc: Global, body: &Tree<'_>) -> Result<Action, BadBody>
    ensures { Gives told (λ x. x) result (remove (view body.now)) }
{
    let change = required_flag(alloc, body, "dataChange")?;
    let deleted = optional_integer(alloc, body, "deletionTimestamp")?;
    let vector = optional_vector(alloc, body, "deletionVector")?;
    let extended = optional_flag(alloc, body, "extendedFileMetadata")?;
    let values = optional_pairs(alloc, body, "partitionValues")?;
    let path = required_path(alloc, body, "path")?;
    let size = optional_from_zero(alloc, body, "size")?;
    Ok(Action::Remove(Remove {
        change,
        deleted,
        extended,
        values,
        path,
        size,
        vector,
    }))
}

#[tactic(auto, unfolding(crate::specs::Bodies::add))]
fn read_add(alloc: Global, body: &Tree<'_>) -> Result<Action, BadBody>
    ensures { Gives told (λ x. x) result (add (view body.now)) }
{
    let change = required_flag(alloc, body, "dataChange")?;
    let vector = optional_vector(alloc, body, "deletionVector")?;
    let modified = required_integer(alloc, body, "modificationTime")?;
    let values = required_pairs(alloc, body, "partitionValues")?;
    let path = required_path(alloc, body, "path")?;
    let size = required_from_zero(alloc, body, "size")?;
    let stats = optional_text(alloc, body, "stats")?;
    let tags = optional_pairs(alloc, body, "tags")?;
    Ok(Action::Add(Add {
        change,
        modified,
        values,
        path,
        size,
        stats,
        tags,
        vector,
    }))
}
