//! Answers, and their statuses.
ghost use Rattle.std.specs.Prelude.{◌≡◌};
ghost use Rattle.http_calls.specs.Answers.{answer_status, refusal_name, refusal_status, why_name};

use crate::call::Refusal;
use crate::content::{Content, Entries};
use action_json::Why;
use action_types::Name;
use log_names::LogName;

/// A ratified commit: the id that it was staged under, its time in milliseconds since 1970 UTC, and its version.
#[derive(Clone, Copy, Debug, PartialEq, Eq)]
pub struct Entry {
    pub id: u128,
    pub time: i64,
    pub version: u64,
}

/// What answers a request. `latest` is the last version of the table, and `reported` the number of versions that are reported as
/// published.
#[derive(Drop)]
pub enum Answer {
    /// The commits from version `reported` up, and the number of all commits.
    Commits {
        entries: Entries,
        count: u64,
        reported: u64,
    },
    /// The version is ratified under the id.
    Ratified {
        latest: u64,
        version: u64,
    },
    /// The version is ratified under another id.
    Lost {
        latest: u64,
    },
    /// The version is above the next one, or, for a report and a published file, above the last; `latest` is none where the table is
    /// empty.
    Ahead {
        latest: Option<u64>,
    },
    /// The staged file is absent.
    NotStaged,
    /// The staged file is no commit: its first faulty line, from 1, and the reason.
    BadCommit {
        line: u64,
        why: Why,
    },
    /// The time of the staged file is another.
    WrongTime,
    /// The commit breaks a rule: what the rule names, the rule, and the unique id where the key is a file with a deletion vector.
    Broken {
        key: Name,
        rule: Name,
        vector: Option<Name>,
    },
    /// The table has as many versions as it may have.
    Full {
        latest: u64,
    },
    /// As many commits as may be are not reported as published.
    Backlog {
        latest: u64,
        reported: u64,
    },
    /// The number after a report.
    Reported {
        reported: u64,
    },
    /// The least version whose published file is absent.
    Gap {
        version: u64,
    },
    /// The file is staged.
    Staged {
        id: u128,
        version: u64,
    },
    /// A file of these bytes was staged before.
    StagedBefore {
        id: u128,
        version: u64,
    },
    /// A file of other bytes has the staged name, or had it.
    Taken,
    /// The commit is published.
    Published {
        version: u64,
    },
    /// The commit was published before.
    PublishedBefore {
        version: u64,
    },
    /// The bytes are not those of the ratified commit.
    Differs,
    /// The bytes of a file of the log.
    File {
        bytes: Content,
    },
    /// The file is absent.
    Absent,
    /// The request asks for no call.
    Refused(Refusal),
    /// The store failed at this file, or at the folder where there is none.
    Fault {
        file: Option<LogName>,
    },
    /// Memory ran out.
    Memory,
}

impl Answer {
    /// The status: 200, 201, 400, 404, 405, 409, 422, 429, 500 or 503.
    pub fn status(&self) -> u16
        ensures { result ≡ answer_status self.now }
    {
        match self {
            Answer::Staged { .. } | Answer::Published { .. } => 201,
            Answer::NotStaged | Answer::Absent => 404,
            Answer::Lost { .. } => 409,
            Answer::Ahead { .. } => 409,
            Answer::Full { .. } => 409,
            Answer::Gap { .. } => 409,
            Answer::Taken | Answer::Differs => 409,
            Answer::BadCommit { .. } => 422,
            Answer::WrongTime => 422,
            Answer::Broken { .. } => 422,
            Answer::Backlog { .. } => 429,
            Answer::Refused(why) => refusal_status(*why),
            Answer::Fault { .. } => 500,
            Answer::Memory => 503,
            Answer::Commits { .. } => 200,
            Answer::Ratified { .. } => 200,
            Answer::Reported { .. } => 200,
            Answer::StagedBefore { .. } => 200,
            Answer::PublishedBefore { .. } => 200,
            Answer::File { .. } => 200,
        }
    }
}

fn refusal_status(why: Refusal) -> u16
    ensures { result ≡ refusal_status why }
{
    match why {
        Refusal::Target | Refusal::Table => 404,
        Refusal::Method => 405,
        Refusal::Body => 400,
    }
}

/// The name of a refusal.
pub(crate) fn refusal_name(why: Refusal) -> &'static str
    ensures { result.now ≡ refusal_name why }
{
    match why {
        Refusal::Target => "target",
        Refusal::Method => "method",
        Refusal::Table => "table",
        Refusal::Body => "body",
    }
}

/// The name of the reason why a line is none of a commit.
pub(crate) fn why_name(why: &Why) -> &'static str
    ensures { result.now ≡ why_name why.now }
{
    match why {
        Why::Utf8 => "utf8",
        Why::NotJson => "notJson",
        Why::NotOneMember => "notOneMember",
        Why::InfoNotFirst => "infoNotFirst",
        Why::Field { .. } => "field",
        Why::Double { .. } => "double",
    }
}
