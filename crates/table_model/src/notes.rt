//! What one caller knows, which only clauses read: a few bytes while it runs, whatever was done.

ghost use Rattle.std.specs.Prelude.{◌≡◌, max};
ghost use Rattle.table_model.specs.World.{WorldData};
ghost use Rattle.table_model.specs.Holding.{HoldsIn};
ghost use Rattle.table_model.specs.Knowledge.{newcomer};
ghost use Rattle.table_model.specs.Learned.{list_learned, stage_learned, publish_learned, clear_learned};
ghost use Rattle.table_model.specs.Noting.{commits_noted, lookup_noted, get_noted, ratify_noted, report_noted};
ghost use Rattle.table_model.specs.Sharing.{split_known, both_known};

use crate::answers::{Staged, StepFault};
use crate::text::Text;
use crate::told::Told;
use commit_catalog::Ratify;
use log_names::LogName;
use object_store::{Bytes, Gone, Put};
use std::snapshot::Snapshot;

/// What a caller knows. What it has seen is the front of the log of this length.
#[derive(Drop)]
pub struct Notes {
    pub seen: u64,
    told: Told,
}

impl Notes {
    ghost use Rattle.table_model.specs.Noted.{noted, known_of};

    /// Nothing known.
    pub fn new() -> Notes
        ensures seen { result.seen ≡ 0 }
        ensures nothing { noted result ≡ newcomer }
    {
        Notes {
            seen: 0,
            told: Told::Nothing,
        }
    }

    /// Notes what the catalogue told of itself: how many commits there are, and how many are reported.
    pub fn note_commits(&mut self, count: u64, reported: u64)
        ensures seen { self.new.seen ≡ count }
        ensures noted { noted self.new ≡ commits_noted reported (noted self.old) }
    {
        self.seen = count;
        self.told = Told::Commits(Snapshot::of(&self.told), reported);
    }

    /// Notes how many commits there are, as the catalogue told beside one of them.
    pub fn note_lookup(&mut self, count: u64)
        ensures seen { self.new.seen ≡ count }
        ensures noted { noted self.new ≡ lookup_noted (noted self.old) }
    {
        self.seen = count;
        self.told = Told::Looked(Snapshot::of(&self.told));
    }

    /// Notes the answer to a turn that lists.
    pub fn note_list(&mut self, answer: &Result<Vec<LogName>, StepFault>)
        ensures seen { self.new.seen ≡ self.old.seen }
        ensures noted { noted self.new ≡ list_learned (noted self.old) answer.now }
    {
        self.told = Told::Listed(Snapshot::of(&self.told), Snapshot::of(answer));
    }

    /// Notes the answer to a turn that reads a file. `is_seen` says of a staged name that it is that of a commit that
    /// was seen.
    pub fn note_get(&mut self, name: LogName, answer: &Result<Bytes, StepFault>, is_seen: bool)
        ensures seen { self.new.seen ≡ self.old.seen }
        ensures noted { noted self.new ≡ get_noted name is_seen (noted self.old) answer.now }
    {
        self.told = Told::Got(
            Snapshot::of(&self.told),
            name,
            Snapshot::of(answer),
            is_seen,
        );
    }

    /// Notes the answer to a turn that stages these bytes.
    pub fn note_stage(
        &mut self,
        version: u64,
        id: u128,
        bytes: &[u8],
        answer: Result<Staged, StepFault>,
    )
        ensures seen { self.new.seen ≡ self.old.seen }
        ensures noted { noted self.new ≡ stage_learned version id bytes.now (noted self.old) answer }
    {
        self.told = Told::Staged(
            Snapshot::of(&self.told),
            version,
            id,
            Text::of(bytes),
            answer,
        );
    }

    /// Notes the answer to a ratification, after which there are `count` commits.
    pub fn note_ratify(&mut self, version: u64, answer: Ratify, count: u64)
        ensures seen { self.new.seen ≡ count }
        ensures noted { noted self.new ≡ ratify_noted version self.old.seen answer (noted self.old) }
    {
        self.told = Told::Ratified(Snapshot::of(&self.told), version, self.seen, answer);
        self.seen = count;
    }

    /// Notes the answer to a turn that publishes a version.
    pub fn note_publish(&mut self, version: u64, answer: Result<Put, StepFault>)
        ensures seen { self.new.seen ≡ self.old.seen }
        ensures noted { noted self.new ≡ publish_learned version (noted self.old) answer }
    {
        self.told = Told::Published(Snapshot::of(&self.told), version, answer);
    }

    /// Notes the reported number.
    pub fn note_report(&mut self, answer: u64)
        ensures seen { self.new.seen ≡ self.old.seen }
        ensures noted { noted self.new ≡ report_noted answer (noted self.old) }
    {
        self.told = Told::Reported(Snapshot::of(&self.told), answer);
    }

    /// Notes the answer to a turn that clears a staged file.
    pub fn note_clear(&mut self, version: u64, id: u128, answer: Result<Gone, StepFault>)
        ensures seen { self.new.seen ≡ self.old.seen }
        ensures noted { noted self.new ≡ clear_learned version id (noted self.old) answer }
    {
        self.told = Told::Cleared(Snapshot::of(&self.told), version, id, answer);
    }

    /// The notes of a new caller beside this one, as in another thread: it knows of the table what this one knows, and
    /// has done nothing itself.
    pub fn split(&self) -> Notes
        ensures seen { result.seen ≡ self.now.seen }
        ensures noted { noted result ≡ split_known (noted self.now) }
        ensures holds { (w : WorldData) → HoldsIn w (known_of w self.now) → HoldsIn w (known_of w result) }
    {
        Notes {
            seen: self.seen,
            told: Told::Split(Snapshot::of(&self.told)),
        }
    }

    /// Knows from here on also what the other caller knows of the table, and counts its commits among its own.
    pub fn join(&mut self, other: &Notes)
        ensures seen { self.new.seen ≡ max self.old.seen other.now.seen }
        ensures noted { noted self.new ≡ both_known (noted self.old) (noted other.now) }
        ensures holds { (w : WorldData) → HoldsIn w (known_of w self.old) → HoldsIn w (known_of w other.now) → HoldsIn w (known_of w self.new) }
    {
        self.seen = self.seen.max(other.seen);
        self.told = Told::Joined(Snapshot::of(&self.told), Snapshot::of(&other.told));
    }
}
