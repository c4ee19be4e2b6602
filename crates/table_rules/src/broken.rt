use action_types::Name;
use std::alloc::AllocError;

/// The first rule that a commit breaks as the next one of a table.
///
/// Where several applications or domains break a rule, the least in byte order is named; where several files do,
/// the least in their order: by path, under one path the file without a deletion vector first, then by the bytes of
/// the vector's unique id. A file is named by its path, and by the unique id of its vector where it has one.
#[derive(PartialEq, Eq, Debug, Drop)]
pub enum Broken {
    /// The first action is no commitInfo.
    NoInfo,
    /// There is no table yet, and the commit lacks a protocol or a metaData.
    NoMeta,
    /// The commit's time is at most the last one, in milliseconds.
    TimeNotAfter { last: i64 },
    /// The commit's protocol breaks a rule of features at this feature, or has another version.
    Feature { name: Name },
    /// The commit's metaData does not have `true` for this property.
    Property { name: Name },
    /// The schema of the commit's metaData speaks of invariants.
    Invariants,
    /// The commit's metaData has other partition columns than the table.
    Columns,
    /// A txn's number is at most the recorded one of its application.
    TxnNotAfter { app: Name, recorded: i64 },
    /// A removed file is not live.
    NotLive { path: Name, vector: Option<Name> },
    /// The table is append-only, and a remove changes data.
    AppendOnly { path: Name, vector: Option<Name> },
    /// The partition values of an added file are not those of the partition columns.
    Partition { path: Name, vector: Option<Name> },
    /// An added file has a deletion vector, and readers are not told of the feature `deletionVectors`.
    Vector { path: Name, vector: Option<Name> },
    /// The commit has metadata of a domain, and writers are not told of the feature `domainMetadata`.
    Domain { domain: Name },
    /// There is no memory; no rule is named.
    Memory,
}

impl From<AllocError> for Broken {
    ghost use Rattle.std.specs.Prelude.{◌≡◌};
    ghost use Rattle.table_rules.specs.declared.broken.Broken.TheVariants.{Memory};

    ghost from_gives = { λ _ e. e ≡ Memory };

    fn from(_error: AllocError) -> Broken {
        Broken::Memory
    }
}
