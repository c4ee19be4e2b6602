//! The replies that tell the answers of the calls.
ghost use Rattle.std.specs.Prelude.{◌≡◌, Err};
ghost use Rattle.table_session.specs.Replying.{loaded_reply, refusal_reply, written_reply};

use session_lines::{BadLine, LineWhy, Reply};
use snapshot_load::{LoadError, Snapshot};
use writer_txn::{WriteError, Written};

/// The reply to the line of this number, of which no request was read.
pub(crate) fn refusal(at: u64, bad: BadLine) -> Reply
    ensures { result ≡ refusal_reply at bad }
{
    match bad {
        BadLine::Utf8 => Reply::BadLine {
            at,
            why: LineWhy::Utf8,
        },
        BadLine::NotJson => Reply::BadLine {
            at,
            why: LineWhy::NotJson,
        },
        BadLine::NotObject => Reply::BadLine {
            at,
            why: LineWhy::NotObject,
        },
        BadLine::Op => Reply::BadLine {
            at,
            why: LineWhy::Op,
        },
        BadLine::Field { field } => Reply::BadLine {
            at,
            why: LineWhy::Field { field },
        },
        BadLine::Memory => Reply::Memory,
    }
}

/// The reply that tells the answer of a load of the last version. The errors of other loads don't come.
pub(crate) fn loaded(answer: Result<Snapshot, LoadError>) -> Reply
    ensures { result ≡ loaded_reply answer }
{
    match answer {
        Ok(snapshot) => Reply::Loaded(snapshot),
        Err(LoadError::NoTable) => Reply::NoTable,
        Err(LoadError::Fault { spot }) => Reply::Fault { spot },
        Err(_) => Reply::Memory,
    }
}

/// The reply that tells the answer of a create or a write.
pub(crate) fn written(answer: Result<Written, WriteError>) -> Reply
    ensures { result ≡ written_reply answer }
{
    match answer {
        Ok(
            Written::Committed {
                version,
                base,
                time,
            },
        ) => Reply::Committed {
            base,
            time,
            version,
        },
        Ok(Written::Already { recorded, latest }) => Reply::Already { latest, recorded },
        Err(error) => not_written(error),
    }
}

/// The reply that tells why nothing was committed.
fn not_written(error: WriteError) -> Reply
    ensures { result ≡ written_reply (Err error) }
{
    match error {
        WriteError::NoTable => Reply::NoTable,
        WriteError::Exists { latest } => Reply::Exists { latest },
        WriteError::Broken { base, why } => Reply::Broken { base, why },
        WriteError::Conflict {
            base,
            winner,
            rule,
            key,
            vector,
            latest,
        } => Reply::Conflict {
            base,
            key,
            latest,
            rule,
            vector,
            winner,
        },
        WriteError::Contended { attempts, latest } => Reply::Contended { attempts, latest },
        WriteError::Full { latest } => Reply::Full { latest },
        WriteError::TimeEnd { base, last } => Reply::TimeEnd { base, last },
        WriteError::TooLarge { base, bytes } => Reply::TooLarge { base, bytes },
        WriteError::Taken { base, version, id } => Reply::Taken { base, id, version },
        WriteError::Fault { spot } => Reply::Fault { spot },
        WriteError::Memory => Reply::Memory,
    }
}
