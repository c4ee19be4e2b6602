ghost use Rattle.std.specs.Prelude.{◌≡◌, ℕ, List, IfOk};

use crate::lists::{Names, Pairs, copy_option};
use crate::text::Name;
use std::alloc::AllocError;

/// An action of a commit (Delta protocol, "Actions"), of the kinds that are read.
#[derive(PartialEq, Eq, Debug, Drop)]
pub enum Action {
    Info(Info),
    Protocol(Protocol),
    Meta(Meta),
    Txn(Txn),
    Domain(Domain),
    Remove(Remove),
    Add(Add),
}

/// Where a commit came from (Delta protocol, "Commit Provenance Information" and "In-Commit Timestamps").
#[derive(PartialEq, Eq, Debug, Drop)]
pub struct Info {
    /// The in-commit timestamp, in milliseconds since 1970 UTC, from 0.
    pub time: i64,
    /// The id of the transaction, where the writer gave one.
    pub txn_id: Option<Name>,
}

/// What a reader and a writer of the table must know (Delta protocol, "Protocol Evolution").
#[derive(PartialEq, Eq, Debug, Drop)]
pub struct Protocol {
    /// The least version of a reader.
    pub reader: i64,
    /// The least version of a writer.
    pub writer: i64,
    /// The table features that a reader must know.
    pub reader_features: Option<Names>,
    /// The table features that a writer must know.
    pub writer_features: Option<Names>,
}

/// The encoding of the data files (Delta protocol, "Format Specification").
#[derive(PartialEq, Eq, Debug, Drop)]
pub struct Format {
    pub provider: Name,
    pub options: Pairs,
}

/// The metadata of the table (Delta protocol, "Change Metadata").
#[derive(PartialEq, Eq, Debug, Drop)]
pub struct Meta {
    /// The table properties: each has a text.
    pub configuration: Pairs,
    /// When the table was made, in milliseconds since 1970 UTC.
    pub created: Option<i64>,
    pub description: Option<Name>,
    pub format: Format,
    /// The id of the table.
    pub id: Name,
    pub name: Option<Name>,
    /// The partition columns.
    pub columns: Names,
    /// The schema as a JSON text, which is not read.
    pub schema: Name,
}

/// The progress of an application (Delta protocol, "Transaction Identifiers").
#[derive(PartialEq, Eq, Debug, Drop)]
pub struct Txn {
    pub app: Name,
    /// When it was written, in milliseconds since 1970 UTC.
    pub updated: Option<i64>,
    /// The application's own number of this write.
    pub number: i64,
}

/// What a domain of metadata says (Delta protocol, "Domain Metadata").
#[derive(PartialEq, Eq, Debug, Drop)]
pub struct Domain {
    /// The configuration of the domain as a text, which is not read.
    pub configuration: Name,
    /// The name of the domain; not empty in what was read.
    pub domain: Name,
    /// Whether the domain is absent from here on.
    pub removed: bool,
}

/// A deletion vector: the rows of a data file that count as deleted (Delta protocol, "Deletion Vectors").
#[derive(PartialEq, Eq, Debug, Drop)]
pub struct Vector {
    /// The type of the storage: `u`, `i` or `p`, which is not looked at.
    pub storage: Name,
    /// The path, or the vector itself in line.
    pub locator: Name,
    /// Where it begins in its file, in bytes, from 0.
    pub offset: Option<i64>,
    /// In bytes, from 0.
    pub size: i64,
    /// How many rows it deletes, from 0.
    pub cardinality: i64,
}

/// A data file that leaves the table (Delta protocol, "Add File and Remove File").
#[derive(PartialEq, Eq, Debug, Drop)]
pub struct Remove {
    /// Whether the commit changes the rows of the table by it.
    pub change: bool,
    /// When it was removed, in milliseconds since 1970 UTC.
    pub deleted: Option<i64>,
    /// Whether size and partition values are there.
    pub extended: Option<bool>,
    /// The partition columns, each with its value or null.
    pub values: Option<Pairs>,
    pub path: Name,
    /// In bytes, from 0.
    pub size: Option<i64>,
    /// The deletion vector of the file, if it has one.
    pub vector: Option<Vector>,
}

/// A data file of the table (Delta protocol, "Add File and Remove File").
#[derive(PartialEq, Eq, Debug, Drop)]
pub struct Add {
    /// Whether the commit changes the rows of the table by it.
    pub change: bool,
    /// When the file was made, in milliseconds since 1970 UTC.
    pub modified: i64,
    /// The partition columns, each with its value or null.
    pub values: Pairs,
    pub path: Name,
    /// In bytes, from 0.
    pub size: i64,
    /// The statistics of the file as a JSON text, which is not read.
    pub stats: Option<Name>,
    pub tags: Option<Pairs>,
    /// The deletion vector of the file, if it has one.
    pub vector: Option<Vector>,
}

/// An equal list, or none; refused for want of memory alone.
fn copy_names(names: &Option<Names>) -> Result<Option<Names>, AllocError>
    ensures { IfOk result (λ n. n ≡ names.now) }
{
    match names {
        None => Ok(None),
        Some(names) => Ok(Some(names.copy()?)),
    }
}

/// Equal pairs, or none; refused for want of memory alone.
fn copy_pairs(pairs: &Option<Pairs>) -> Result<Option<Pairs>, AllocError>
    ensures { IfOk result (λ n. n ≡ pairs.now) }
{
    match pairs {
        None => Ok(None),
        Some(pairs) => Ok(Some(pairs.copy()?)),
    }
}

/// An equal vector, or none; refused for want of memory alone.
fn copy_vector(vector: &Option<Vector>) -> Result<Option<Vector>, AllocError>
    ensures { IfOk result (λ n. n ≡ vector.now) }
{
    match vector {
        None => Ok(None),
        Some(vector) => Ok(Some(vector.copy()?)),
    }
}

impl Info {
    /// An equal action; refused for want of memory alone.
    pub fn copy(&self) -> Result<Info, AllocError>
        ensures { IfOk result (λ n. n ≡ self.now) }
    {
        let txn_id = copy_option(&self.txn_id)?;
        Ok(Info {
            time: self.time,
            txn_id,
        })
    }
}

impl Protocol {
    /// An equal action; refused for want of memory alone.
    pub fn copy(&self) -> Result<Protocol, AllocError>
        ensures { IfOk result (λ n. n ≡ self.now) }
    {
        let reader_features = copy_names(&self.reader_features)?;
        let writer_features = copy_names(&self.writer_features)?;
        Ok(Protocol {
            reader: self.reader,
            writer: self.writer,
            reader_features,
            writer_features,
        })
    }
}

impl Format {
    /// An equal format; refused for want of memory alone.
    pub fn copy(&self) -> Result<Format, AllocError>
        ensures { IfOk result (λ n. n ≡ self.now) }
    {
        let provider = self.provider.copy()?;
        let options = self.options.copy()?;
        Ok(Format { provider, options })
    }
}

impl Meta {
    /// An equal action; refused for want of memory alone.
    pub fn copy(&self) -> Result<Meta, AllocError>
        ensures { IfOk result (λ n. n ≡ self.now) }
    {
        let configuration = self.configuration.copy()?;
        let description = copy_option(&self.description)?;
        let format = self.format.copy()?;
        let id = self.id.copy()?;
        let name = copy_option(&self.name)?;
        let columns = self.columns.copy()?;
        let schema = self.schema.copy()?;
        Ok(Meta {
            configuration,
            created: self.created,
            description,
            format,
            id,
            name,
            columns,
            schema,
        })
    }
}

impl Txn {
    /// An equal action; refused for want of memory alone.
    pub fn copy(&self) -> Result<Txn, AllocError>
        ensures { IfOk result (λ n. n ≡ self.now) }
    {
        let app = self.app.copy()?;
        Ok(Txn {
            app,
            updated: self.updated,
            number: self.number,
        })
    }
}

impl Domain {
    /// An equal action; refused for want of memory alone.
    pub fn copy(&self) -> Result<Domain, AllocError>
        ensures { IfOk result (λ n. n ≡ self.now) }
    {
        let configuration = self.configuration.copy()?;
        let domain = self.domain.copy()?;
        Ok(Domain {
            configuration,
            domain,
            removed: self.removed,
        })
    }
}

impl Vector {
    /// An equal vector; refused for want of memory alone.
    pub fn copy(&self) -> Result<Vector, AllocError>
        ensures { IfOk result (λ n. n ≡ self.now) }
    {
        let storage = self.storage.copy()?;
        let locator = self.locator.copy()?;
        Ok(Vector {
            storage,
            locator,
            offset: self.offset,
            size: self.size,
            cardinality: self.cardinality,
        })
    }
}

impl Remove {
    /// An equal action; refused for want of memory alone.
    pub fn copy(&self) -> Result<Remove, AllocError>
        ensures { IfOk result (λ n. n ≡ self.now) }
    {
        let values = copy_pairs(&self.values)?;
        let path = self.path.copy()?;
        let vector = copy_vector(&self.vector)?;
        Ok(Remove {
            change: self.change,
            deleted: self.deleted,
            extended: self.extended,
            values,
            path,
            size: self.size,
            vector,
        })
    }
}

impl Add {
    /// An equal action; refused for want of memory alone.
    pub fn copy(&self) -> Result<Add, AllocError>
        ensures { IfOk result (λ n. n ≡ self.now) }
    {
        let values = self.values.copy()?;
        let path = self.path.copy()?;
        let stats = copy_option(&self.stats)?;
        let tags = copy_pairs(&self.tags)?;
        let vector = copy_vector(&self.vector)?;
        Ok(Add {
            change: self.change,
            modified: self.modified,
            values,
            path,
            size: self.size,
            stats,
            tags,
            vector,
        })
    }
}

impl Action {
    /// An equal action; refused for want of memory alone.
    pub fn copy(&self) -> Result<Action, AllocError>
        ensures { IfOk result (λ n. n ≡ self.now) }
    {
        match self {
            Action::Info(info) => Ok(Action::Info(info.copy()?)),
            Action::Protocol(protocol) => Ok(Action::Protocol(protocol.copy()?)),
            Action::Meta(meta) => Ok(Action::Meta(meta.copy()?)),
            Action::Txn(txn) => Ok(Action::Txn(txn.copy()?)),
            Action::Domain(domain) => Ok(Action::Domain(domain.copy()?)),
            Action::Remove(remove) => Ok(Action::Remove(remove.copy()?)),
            Action::Add(add) => Ok(Action::Add(add.copy()?)),
        }
    }
}
