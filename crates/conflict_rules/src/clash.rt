use action_types::Vector;

/// A rule by which an intended write conflicts with a commit.
#[derive(Clone, Copy, PartialEq, Eq, Debug)]
pub enum Rule {
    /// The commit has a protocol.
    Protocol,
    /// The commit has a metaData.
    Metadata,
    /// The commit has a txn of the writer's application; the key is the application.
    Transaction,
    /// The commit removes a file that the writer removes; the key is the least such file.
    DeleteDelete,
    /// The commit removes a file that the writer read; the key is the least such file.
    DeleteRead,
    /// The commit adds data to a table that the writer read whole; the key is the least file added.
    Append,
    /// The commit has metadata of a domain of which the writer has some; the key is the least such domain.
    Domain,
}

/// The first rule by which an intended write conflicts with a commit, and its key.
#[derive(Clone, Copy, PartialEq, Eq, Debug)]
pub struct Clash<'a> {
    pub rule: Rule,
    /// An application, a domain, the path of a file, or empty where the rule has no key.
    pub key: &'a str,
    /// The deletion vector, where the key is a file that has one.
    pub vector: Option<&'a Vector>,
}

/// The first of several commits that conflict with an intended write.
#[derive(Clone, Copy, PartialEq, Eq, Debug)]
pub struct Lowest<'a> {
    /// The place of the commit among them, from 0.
    pub place: usize,
    pub clash: Clash<'a>,
}
