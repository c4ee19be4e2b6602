//! The commit catalogue of a catalog-managed Delta table: the list of ratified commits, the number of
//! versions whose publication was reported, and the limits that a further commit must meet.
#![tactic(auto)]

ghost use Rattle.std.specs.Prelude.{◌≡◌, ◌≤◌, ◌<◌, [], length, max, OnOk, OnErr, IfOk};
ghost use Rattle.commit_catalog.specs.Records.{AreLimits, IsWithinLimits, ratified_at};
ghost use Rattle.commit_catalog.specs.Ratifying.{RatifyAnswers, records_after, TellsCommits, HasOneAnswer};

use std::alloc::{AllocError, Global};
use std::marker::Model;

/// The limits of a table. Each is at least 1.
#[derive(Clone, Copy, Debug, PartialEq, Eq)]
pub struct Limits {
    /// The most versions that may be ratified.
    pub versions: u64,
    /// The most ratified versions whose publication is not yet reported.
    pub unpublished: u64,
    /// The most tries of one write.
    pub attempts: u64,
    /// The most bytes of one commit.
    pub bytes: u64,
}

/// What the catalogue keeps of a commit; its version is its place in the list.
#[derive(Clone, Copy, Debug, PartialEq, Eq)]
pub struct Entry {
    /// The UUID under which the commit was staged.
    pub id: u128,
    /// The commit's in-commit timestamp, in milliseconds since the Unix epoch.
    pub time: i64,
}

/// A ratified commit.
#[derive(Clone, Copy, Debug, PartialEq, Eq)]
pub struct Ratified {
    /// The table version, from 0.
    pub version: u64,
    /// The UUID under which the commit was staged.
    pub id: u128,
    /// The commit's in-commit timestamp, in milliseconds since the Unix epoch.
    pub time: i64,
}

/// What the catalogue tells of itself in one turn.
#[derive(Debug, Drop)]
pub struct Commits {
    /// The number of ratified versions.
    pub count: u64,
    /// The number of versions whose publication was reported.
    pub reported: u64,
    /// The ratified versions from `reported` up, in order.
    pub staged: Vec<Ratified>,
}

/// The answer to a ratification. Each of the last three leaves the catalogue as it was.
#[derive(Clone, Copy, Debug, PartialEq, Eq)]
pub enum Ratify {
    /// The commit is now the last of the list.
    Done,
    /// The version is ratified already; `latest` is the last ratified version.
    Lost { latest: u64 },
    /// As many versions are ratified as the limit allows.
    Full { latest: u64 },
    /// As many versions are unpublished as the limit allows.
    Backlog { latest: u64, reported: u64 },
}

/// The list of ratified commits with what was reported of their publication.
#[derive(Drop)]
pub struct Catalog {
    limits: Limits,
    records: Vec<Entry>,
    reported: u64,
}

impl Model for Catalog {
    ghost use Rattle.std.specs.Prelude.{vec_capacity};
    ghost use Rattle.commit_catalog.specs.Records.{CatalogData, IsWithinLimits};

    ghost Value = { CatalogData };

    ghost view = { λ c. record { records = c.records.items; reported = c.reported; limits = c.limits; room = vec_capacity c.records } };

    ghost invariant = { λ c. IsWithinLimits record { records = c.records.items; reported = c.reported; limits = c.limits; room = vec_capacity c.records } };
}

impl Catalog {
    /// A catalogue without commits. It takes no memory.
    pub fn new(alloc: Global, limits: Limits) -> Catalog
        requires { AreLimits limits }
        ensures empty { result ≡ record { records = []; reported = 0; limits = limits; room = 0 } }
        ensures within { IsWithinLimits result }
    {
        Catalog {
            limits,
            records: Vec::new(alloc),
            reported: 0,
        }
    }

    /// The limits that the catalogue was made with.
    pub fn limits(&self) -> Limits
        ensures value { result ≡ self.now.limits }
        ensures within { IsWithinLimits self.now }
    {
        self.limits
    }

    /// The number of ratified versions.
    pub fn count(&self) -> u64
        ensures value { result ≡ length self.now.records }
        ensures within { IsWithinLimits self.now }
    {
        self.records.len() as u64
    }

    /// The number of versions whose publication was reported.
    pub fn reported(&self) -> u64
        ensures value { result ≡ self.now.reported }
        ensures within { IsWithinLimits self.now }
    {
        self.reported
    }

    /// The ratified commit of a version, or `None` where that version is not ratified.
    pub fn find(&self, version: u64) -> Option<Ratified>
        ensures value { result ≡ ratified_at self.now.records version }
        ensures within { IsWithinLimits self.now }
    {
        let entry = self.records.get(version as usize)?;
        Some(Ratified {
            version,
            id: entry.id,
            time: entry.time,
        })
    }

    /// The number of ratified versions, the reported number, and the versions from there up.
    /// The error is want of memory.
    pub fn commits(&self) -> Result<Commits, AllocError>
        ensures ok { IfOk result (TellsCommits self.now.records self.now.reported) }
        ensures within { IsWithinLimits self.now }
    {
        let count = self.count();
        let mut staged = Vec::new(*self.records.allocator());
        for version in self.reported..count {
            let entry = self.records[version as usize];
            staged.push(Ratified {
                version,
                id: entry.id,
                time: entry.time,
            })?;
        }
        Ok(Commits {
            count,
            reported: self.reported,
            staged,
        })
    }

    /// Makes room for one more commit, so that the next `ratify` takes no memory. It changes nothing else;
    /// the error is want of memory, and leaves the catalogue as it was.
    pub fn reserve(&mut self) -> Result<(), AllocError>
        ensures same { self.new ≡ record self.old { room = self.new.room } }
        ensures ok { OnOk result (length self.new.records < self.new.room) }
        ensures err { OnErr result (self.new ≡ self.old) }
        ensures within { IsWithinLimits self.new }
    {
        self.records.reserve(1)
    }

    /// Ratifies a version under an id and a time, or says why it can't. It needs room for one more commit and
    /// a version at most the number of ratified ones, and takes no memory. (Catalog-managed tables: a commit is
    /// ratified once the catalogue accepts it as the version that it proposes.)
    pub fn ratify(&mut self, version: u64, id: u128, time: i64) -> Ratify
        requires room { length self.old.records < self.old.room }
        requires version { version ≤ length self.old.records }
        ensures answer { RatifyAnswers self.old.limits (length self.old.records) self.old.reported version result }
        ensures after { self.new ≡ record self.old { records = records_after result self.old.records id time; room = self.new.room } }
        ensures room { self.old.room ≤ self.new.room }
        ensures within { IsWithinLimits self.new }
    {
        let count = self.count();
        if version < count {
            return Ratify::Lost { latest: count - 1 };
        }
        if count == self.limits.versions {
            return Ratify::Full { latest: count - 1 };
        }
        if count - self.reported == self.limits.unpublished {
            return Ratify::Backlog {
                latest: count - 1,
                reported: self.reported,
            };
        }
        self.records.push(Entry { id, time }).unwrap();
        Ratify::Done
    }

    /// Takes note that the versions below `count`, at most the number of ratified ones, are published.
    /// The answer is the reported number, which is the larger of the earlier one and `count`.
    pub fn report(&mut self, count: u64) -> u64
        requires { count ≤ length self.old.records }
        ensures value { result ≡ max self.old.reported count }
        ensures after { self.new ≡ record self.old { reported = result } }
        ensures within { IsWithinLimits self.new }
    {
        self.reported = self.reported.max(count);
        self.reported
    }
}

/// The answer to a ratification is determined: the four cases exclude one another.
pub fn ratify_has_one_answer()
    ensures { HasOneAnswer }
{}
