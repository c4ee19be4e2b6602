use crate::lists::{Adds, Domains, Removes};
use action_types::{Name, Names, Pairs};

/// How much the order of concurrent writes matters to a writer.
#[derive(Clone, Copy, PartialEq, Eq, Debug)]
pub enum Level {
    /// Reads see exactly the commits before the write.
    Serializable,
    /// A write may stand after blind appends that it did not see.
    WriteSerializable,
}

/// What a writer has read of the table.
#[derive(PartialEq, Eq, Debug, Drop)]
pub enum Reads {
    /// Nothing.
    None,
    /// The whole table.
    All,
    /// The files of these paths.
    Paths(Names),
}

/// What a write changes of the metadata and of the protocol; what is absent stays.
#[derive(PartialEq, Eq, Debug, Drop)]
pub struct Change {
    pub name: Option<Name>,
    pub description: Option<Name>,
    pub schema: Option<Name>,
    /// Properties to add, or to put in the place of the old ones.
    pub configuration: Option<Pairs>,
    /// The features of a new protocol.
    pub features: Option<Names>,
}

/// A write that a caller intends.
#[derive(Drop)]
pub struct Intent {
    /// The application, and its own number of this write.
    pub app: Name,
    pub number: i64,
    pub level: Level,
    pub reads: Reads,
    pub adds: Adds,
    pub removes: Removes,
    /// Metadata of domains to set or to remove.
    pub domains: Domains,
    pub change: Option<Change>,
}
