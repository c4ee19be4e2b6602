ghost use Rattle.std.specs.Prelude.{◌≡◌};

use std::snapshot::Snapshot;

/// A text that only clauses read. It takes a byte, however long it is.
#[derive(Drop)]
pub enum Text {
    End,
    Longer(Snapshot<Text>, Snapshot<u8>),
}

impl Text {
    ghost use Rattle.table_model.specs.Noted.{bytes_of};

    /// The text of these bytes, of which none is kept.
    pub fn of(bytes: &[u8]) -> Text
        ensures { bytes_of result ≡ bytes.now }
    {
        let mut text = Text::End;
        for byte in bytes {
            text = Text::Longer(Snapshot::of(&text), Snapshot::of(byte));
        }
        text
    }
}
