use staged_commit::{Create, Intent};

/// What a line asks for.
#[derive(Drop)]
pub enum Request {
    /// That the table be made.
    Create(Create),
    /// That files be added.
    Write(Intent),
    /// The state of the last version.
    Load,
}
