//! The names of the files of a table's log, relative to the log folder, and their texts.
#![tactic(auto)]

ghost use Rattle.std.specs.Prelude.{◌≡◌, IfSome};
ghost use Rattle.log_names.specs.Texts.{name_text, IsNameOf};
ghost use Rattle.log_names.specs.Reading.{name_of};

mod buffer;
pub mod laws;
mod reading;
mod writing;

pub use buffer::NameText;

/// The name of a file of the log, relative to the log folder.
///
/// A version is written in 20 decimal digits, an id as a hyphenated lower-case UUID.
#[derive(Clone, Copy, Debug, PartialEq, Eq)]
pub enum LogName {
    /// The published commit of a version, `V.json`.
    Published(u64),
    /// A staged commit of a version under an id, `_staged_commits/V.U.json`.
    Staged(u64, u128),
    /// A V2 checkpoint of a version under an id, written as JSON, `V.checkpoint.U.json`.
    Checkpoint(u64, u128),
    /// A checkpoint of a version in Parquet: whole, under an id, or a part of several.
    Parquet(u64),
    /// A name of no other kind.
    Other,
}

impl LogName {
    /// The name of a text: `Other` where the text has the form of no other name.
    pub fn parse(text: &str) -> LogName
        ensures value { result ≡ name_of text.now }
        ensures meaning { IsNameOf text.now result }
    {
        reading::parse_bytes(text.as_bytes())
    }

    /// The text of this name, or `None` for `Parquet` and `Other`.
    pub fn text(&self) -> Option<NameText>
        ensures value { result ≡ name_text self.now }
        ensures reads_back { IfSome result (λ t. name_of t ≡ self.now) }
    {
        match *self {
            LogName::Published(version) => Some(writing::published(version)),
            LogName::Staged(version, id) => Some(writing::staged(version, id)),
            LogName::Checkpoint(version, id) => Some(writing::checkpoint(version, id)),
            LogName::Parquet(_) | LogName::Other => None,
        }
    }
}
