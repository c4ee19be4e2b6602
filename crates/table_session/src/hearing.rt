//! The lines of the input, one at a time.
ghost use Rattle.std.specs.Prelude.{◌≡◌, ◌⊎◌, ℕ, List, not, Err};
ghost use Rattle.text_lines.specs.Lines.{Numbered, is_blank};
ghost use Rattle.lake_io.specs.Reading.{Heard};
ghost use Rattle.lake_io.specs.declared.answers.End.TheVariants as end;
ghost use Rattle.lake_io.specs.declared.reader.InputState.TheVariants as state;
ghost use Rattle.table_session.specs.Asking.{gets_reply};
ghost use Rattle.table_session.specs.Sessions.{IsCaused};
ghost use Rattle.table_session.specs.Hearing.{Hears, heard_as, IsAskedIn};

use lake_io::{End, Line, LineError, Lines, Source};

/// A line of the input.
#[derive(Drop)]
pub(crate) enum Asked {
    /// One that was read.
    Line(Line),
    /// The line of this number, from 1, which is longer than a line may be.
    TooLong(u64),
}

/// Whether the line gets a reply: one that is white space alone gets none, unless it is too long.
pub(crate) fn gets_reply(asked: &Asked) -> bool
    ensures { (line : Numbered) → IsAskedIn line asked.now → result ≡ gets_reply line }
{
    match asked {
        Asked::Line(line) => !is_blank(&line.text),
        Asked::TooLong(_) => true,
    }
}

/// Whether a text is JSON white space alone.
fn is_blank(text: &[u8]) -> bool
    ensures { result ≡ is_blank text.now }
{
    text.iter().all(|byte| *byte == b' ' || *byte == b'\t' || *byte == b'\n' || *byte == b'\r')
}

/// The next line of the input, or how the session ends.
pub(crate) fn hear<I: Source>(lines: &mut Lines, source: &mut I) -> Result<Asked, End>
    requires { (lines.old.state ≡ state.Open) ⊎ (lines.old.state ≡ state.Ended) }
    ensures heard { (bytes : List ℕ) (handed : List (List ℕ))
        → Heard I.tells (I.left source.old) bytes handed lines.old
        → Hears I.tells (I.taken source.old) (I.left source.old) bytes handed result
        (I.taken source.new) (I.left source.new) lines.new }
    ensures cause { IsCaused (result ≡ Err end.ReadFault) (I.faults source.old)
        (I.faults source.new) }
{
    asked_of(lines.next(source))
}

fn asked_of(next: Result<Option<Line>, LineError>) -> Result<Asked, End>
    ensures { result ≡ heard_as next }
{
    match next {
        Ok(Some(line)) => Ok(Asked::Line(line)),
        Ok(None) => Err(End::Done),
        Err(LineError::TooLong { at }) => Ok(Asked::TooLong(at)),
        Err(LineError::ReadFault) => Err(End::ReadFault),
        Err(LineError::TooMuch) => Err(End::TooMuch),
        Err(LineError::Memory) => Err(End::Memory),
    }
}
