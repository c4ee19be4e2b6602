//! Checkpoints of a few lines.

use action_json::{Why, read_commit};
use checkpoint_v2::{BadCheckpoint, can_be_written, read_checkpoint, write_checkpoint};
use reconcile::State;
use std::alloc::Global;
use std::test::Fail;

const VERSION: &str = "{\"checkpointMetadata\":{\"version\":1}}";

const PROTOCOL: &str =
    "{\"protocol\":{\"minReaderVersion\":3,\"minWriterVersion\":7,\"readerFeatures\":[\"v2Checkpoint\"],\"writerFeatures\":[\"v2Checkpoint\"]}}";

const META: &str =
    "{\"metaData\":{\"configuration\":{},\"format\":{\"options\":{},\"provider\":\"parquet\"},\"id\":\"t1\",\"partitionColumns\":[],\"schemaString\":\"{}\"}}";

const TXN: &str = "{\"txn\":{\"appId\":\"A\",\"version\":1}}";

const ADD: &str =
    "{\"add\":{\"dataChange\":false,\"modificationTime\":5,\"partitionValues\":{},\"path\":\"a\",\"size\":10}}";

const ADDED: &str =
    "{\"add\":{\"dataChange\":true,\"modificationTime\":5,\"partitionValues\":{},\"path\":\"a\",\"size\":10}}";

const MARKED: &str =
    "{\"add\":{\"dataChange\":false,\"deletionVector\":{\"cardinality\":6,\"offset\":4,\"pathOrInlineDv\":\"x1\",\"sizeInBytes\":40,\"storageType\":\"u\"},\"modificationTime\":5,\"partitionValues\":{\"p\":null},\"path\":\"a\",\"size\":10,\"stats\":\"{}\"}}";

const REMOVE: &str =
    "{\"remove\":{\"dataChange\":false,\"deletionTimestamp\":7,\"path\":\"b\",\"size\":3}}";

const DOMAIN: &str =
    "{\"domainMetadata\":{\"configuration\":\"c\",\"domain\":\"d\",\"removed\":false}}";

/// The line of a word; an empty line for any other word.
fn line(word: &str) -> &'static str {
    match word {
        "version" => VERSION,
        "protocol" => PROTOCOL,
        "meta" => META,
        "txn" => TXN,
        "add" => ADD,
        "added" => ADDED,
        "marked" => MARKED,
        "remove" => REMOVE,
        "domain" => DOMAIN,
        _ => other_line(word),
    }
}

fn other_line(word: &str) -> &'static str {
    match word {
        "more" => "{\"checkpointMetadata\":{\"tags\":{},\"version\":1}}",
        "huge" => "{\"checkpointMetadata\":{\"version\":18446744073709551615}}",
        "negative" => "{\"checkpointMetadata\":{\"version\":-1}}",
        "undomain" => {
            "{\"domainMetadata\":{\"configuration\":\"c\",\"domain\":\"d\",\"removed\":true}}"
        }
        "info" => "{\"commitInfo\":{\"inCommitTimestamp\":1000}}",
        "bare" => "{\"commitInfo\":5}",
        "cdc" => "{\"cdc\":{\"path\":\"c\"}}",
        "sidecar" => "{\"sidecar\":{\"path\":\"x.parquet\"}}",
        "list" => "{\"sidecar\":[]}",
        "pair" => "{\"add\":{},\"txn\":{}}",
        "brace" => "{",
        "spaced" => {
            " { \"txn\" : { \"version\" : 1, \"appId\" : \"A\", \"other\" : [ 1.5 ] } }\r"
        }
        _ => "",
    }
}

/// The lines of words, each ended by LF.
fn lines(alloc: Global, words: &str) -> Result<String, Fail> {
    let mut text = String::new(alloc);
    for word in words.split_whitespace() {
        text.push_str(line(word))?;
        text.push('\n')?;
    }
    Ok(text)
}

/// The checkpoint of a state; empty where the state has no protocol or no metadata.
pub fn written(alloc: Global, version: u64, state: &State) -> Result<Vec<u8>, Fail> {
    if can_be_written(state) {
        Ok(write_checkpoint(alloc, version, state)?)
    } else {
        Ok(Vec::new(alloc))
    }
}

/// The state of a commit text over a state.
pub fn applied(alloc: Global, state: State, text: &str) -> Result<State, Fail> {
    match read_commit(alloc, text.as_bytes()) {
        Ok(actions) => Ok(state.apply(actions.as_slice())?),
        Err(_) => Ok(State::empty(alloc)),
    }
}

#[test]
fn the_checkpoint_of_a_table(rt: HostRuntime) -> Result<(), Fail> {
    let alloc = rt.alloc();
    let created = lines(alloc, "info protocol meta")?;
    let grown = lines(alloc, "info txn added")?;
    let first = applied(alloc, State::empty(alloc), created.as_str())?;
    let state = applied(alloc, first, grown.as_str())?;
    let text = written(alloc, 1, &state)?;
    let wanted = lines(alloc, "version protocol meta txn add")?;
    assert_eq!(rt; text.as_slice(), wanted.as_bytes());
    Ok(())
}

/// Words of lines, and those of the canonical text of the state that is read of them.
const READ: [(&str, &str); 9] = [
    (
        "version protocol meta txn add",
        "version protocol meta txn add",
    ),
    ("version protocol meta", "version protocol meta"),
    (
        "add txn meta protocol version",
        "version protocol meta txn add",
    ),
    (
        "added - marked meta bare remove version cdc domain protocol",
        "version protocol meta domain remove add marked",
    ),
    ("- - version - protocol - meta -", "version protocol meta"),
    (
        "info version protocol meta info add",
        "version protocol meta add",
    ),
    ("spaced meta protocol more", "version protocol meta txn"),
    (
        "marked version protocol meta",
        "version protocol meta marked",
    ),
    (
        "domain remove meta protocol version txn",
        "version protocol meta txn domain remove",
    ),
];

/// The canonical text of the state that is read of a checkpoint of version 1; empty where it is refused or has a time.
fn rewritten(alloc: Global, text: &[u8]) -> Result<Vec<u8>, Fail> {
    match read_checkpoint(alloc, 1, text) {
        Ok(state) => {
            if state.time().is_some() {
                return Ok(Vec::new(alloc));
            }
            written(alloc, 1, &state)
        }
        Err(_) => Ok(Vec::new(alloc)),
    }
}

#[test]
fn checkpoints_are_read(rt: HostRuntime) -> Result<(), Fail> {
    let alloc = rt.alloc();
    for (words, wanted) in READ {
        let text = lines(alloc, words)?;
        let wanted = lines(alloc, wanted)?;
        let whole = rewritten(alloc, text.as_bytes())?;
        assert_eq!(rt; whole.as_slice(), wanted.as_bytes(), "{words}");
        let unended = rewritten(alloc, text.as_str().trim_end_matches('\n').as_bytes())?;
        assert_eq!(rt; unended.as_slice(), wanted.as_bytes(), "{words}");
    }
    Ok(())
}

/// Why a line is faulty, in words.
fn reason(alloc: Global, why: Why) -> Result<String, Fail> {
    match why {
        Why::Field { kind, field } => {
            let kind = kind.name();
            let field = field.as_str();
            Ok(format!(in alloc; "{kind} without {field}")?)
        }
        Why::Double { kind, key } => {
            let kind = kind.name();
            let key = key.as_str();
            Ok(format!(in alloc; "second {kind} {key}")?)
        }
        Why::NotJson => Ok(String::from_str(alloc, "no JSON")?),
        Why::NotOneMember => Ok(String::from_str(alloc, "not one member")?),
        _ => Ok(String::from_str(alloc, "another reason")?),
    }
}

/// What is told of a checkpoint text, in words; none where it is read.
fn refusal(alloc: Global, version: u64, text: &[u8]) -> Result<String, Fail> {
    match read_checkpoint(alloc, version, text) {
        Ok(_) => Ok(String::new(alloc)),
        Err(BadCheckpoint::Line { line, why }) => {
            let reason = reason(alloc, why)?;
            Ok(format!(in alloc; "line {line}: {reason}")?)
        }
        Err(BadCheckpoint::Sidecar { line }) => Ok(format!(in alloc; "sidecar {line}")?),
        Err(BadCheckpoint::NoMetadata) => Ok(String::from_str(alloc, "no metadata")?),
        Err(BadCheckpoint::WrongVersion { found }) => Ok(format!(in alloc; "of version {found}")?),
        Err(BadCheckpoint::NoState) => Ok(String::from_str(alloc, "no state")?),
        Err(BadCheckpoint::Memory) => Ok(String::from_str(alloc, "memory")?),
    }
}

/// A version, words of lines, and what is told of their text.
const REFUSED: [(u64, &str, &str); 24] = [
    (1, "version protocol meta sidecar", "sidecar 4"),
    (2, "version protocol meta txn add", "of version 1"),
    (1, "version protocol", "no state"),
    (1, "version meta add", "no state"),
    (1, "", "no metadata"),
    (1, "- - info", "no metadata"),
    (1, "protocol meta add", "no metadata"),
    (0, "version", "of version 1"),
    (18446744073709551615, "huge protocol meta", ""),
    (1, "huge protocol meta", "of version 18446744073709551615"),
    (
        1,
        "negative protocol meta",
        "line 1: checkpointMetadata without version",
    ),
    (
        1,
        "version protocol meta more",
        "line 4: second checkpointMetadata ",
    ),
    (
        1,
        "version protocol meta undomain",
        "line 4: domainMetadata without removed",
    ),
    (1, "version list sidecar", "line 2: sidecar without "),
    (1, "version sidecar list", "sidecar 2"),
    (1, "brace sidecar", "line 1: no JSON"),
    (1, "sidecar brace", "sidecar 1"),
    (1, "- pair version", "line 2: not one member"),
    (1, "protocol version protocol", "line 3: second protocol "),
    (1, "meta - meta", "line 3: second metaData "),
    (1, "add add sidecar", "line 2: second add a"),
    (1, "txn - add txn", "line 4: second txn A"),
    (1, "domain domain", "line 2: second domainMetadata d"),
    (1, "remove marked add remove", "line 4: second remove b"),
];

#[test]
fn refusals(rt: HostRuntime) -> Result<(), Fail> {
    let alloc = rt.alloc();
    for (version, words, wanted) in REFUSED {
        let text = lines(alloc, words)?;
        let told = refusal(alloc, version, text.as_bytes())?;
        assert_eq!(rt; told.as_str(), wanted, "{words}");
    }
    Ok(())
}
