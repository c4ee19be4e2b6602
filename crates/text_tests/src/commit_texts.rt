//! Commit texts whose files have deletion vectors, and commit texts with domain metadata.

use action_fields::push_line;
use action_json::{BadCommit, Why, is_commit, read_commit, write_commit};
use action_types::{Action, Add, Domain, Info, Name, Pairs, Remove, Vector};
use std::alloc::Global;
use std::test::Fail;

/// The vector of a word, as `x1`, or `x1@4` with the offset 4; none of no word.
fn vector(alloc: Global, word: &str) -> Result<Option<Vector>, Fail> {
    if word.is_empty() {
        return Ok(None);
    }
    let mut parts = word.split('@');
    let storage = Name::from_str(alloc, "u")?;
    let locator = Name::from_str(alloc, parts.next().unwrap_or(""))?;
    let offset = match parts.next() {
        None => None,
        Some(digits) => Some(digits.parse::<i64>().unwrap_or(-1)),
    };
    Ok(Some(Vector {
        storage,
        locator,
        offset,
        size: 40,
        cardinality: 6,
    }))
}

fn add(alloc: Global, path: &str, word: &str) -> Result<Action, Fail> {
    let path = Name::from_str(alloc, path)?;
    let vector = vector(alloc, word)?;
    Ok(Action::Add(Add {
        change: true,
        modified: 5,
        values: Pairs::new(alloc),
        path,
        size: 10,
        stats: None,
        tags: None,
        vector,
    }))
}

fn remove(alloc: Global, path: &str, word: &str) -> Result<Action, Fail> {
    let path = Name::from_str(alloc, path)?;
    let vector = vector(alloc, word)?;
    Ok(Action::Remove(Remove {
        change: true,
        deleted: None,
        extended: None,
        values: None,
        path,
        size: None,
        vector,
    }))
}

fn domain(alloc: Global, name: &str, removed: bool) -> Result<Action, Fail> {
    let configuration = Name::from_str(alloc, "{\"c\":1}")?;
    let domain = Name::from_str(alloc, name)?;
    Ok(Action::Domain(Domain {
        configuration,
        domain,
        removed,
    }))
}

/// The action of a few words: `add` or `remove`, a path, and the word of a vector or none; `set` or `unset` and a domain.
fn action(alloc: Global, text: &str) -> Result<Action, Fail> {
    let mut words = text.split_whitespace();
    let kind = words.next().unwrap_or("");
    let name = words.next().unwrap_or("");
    let word = words.next().unwrap_or("");
    match kind {
        "add" => add(alloc, name, word),
        "remove" => remove(alloc, name, word),
        _ => domain(alloc, name, kind == "unset"),
    }
}

/// An info, and the actions of a text, with a `;` between them.
fn actions(alloc: Global, text: &str) -> Result<Vec<Action>, Fail> {
    let mut actions = Vec::new(alloc);
    actions.push(Action::Info(Info {
        time: 1,
        txn_id: None,
    }))?;
    for part in text.split(';') {
        actions.push(action(alloc, part)?)?;
    }
    Ok(actions)
}

/// The canonical lines of actions, which need be no commit.
fn lines(alloc: Global, actions: &[Action]) -> Result<Vec<u8>, Fail> {
    let mut text = Vec::new(alloc);
    for action in actions {
        push_line(alloc, &mut text, action)?;
        text.push(b'\n')?;
    }
    Ok(text)
}

/// The flaw of a text, in a line; empty where it is read as these actions.
fn flaw(alloc: Global, text: &[u8], actions: &[Action]) -> Result<String, Fail> {
    match read_commit(alloc, text) {
        Ok(found) if found.as_slice() == actions => Ok(String::new(alloc)),
        Err(
            BadCommit::At {
                line,
                why: Why::Double { kind, key },
            },
        ) => {
            let kind = kind.name();
            let key = key.as_str();
            Ok(format!(in alloc; "line {line}: {kind} {key}")?)
        }
        Err(
            BadCommit::At {
                line,
                why: Why::Field { kind, field },
            },
        ) => {
            let kind = kind.name();
            let field = field.as_str();
            Ok(format!(in alloc; "line {line}: {kind} without {field}")?)
        }
        _ => Ok(String::from_str(alloc, "other actions or another flaw")?),
    }
}

/// Whether the actions are a commit that is written as these lines.
fn is_written(alloc: Global, actions: &[Action], lines: &[u8]) -> Result<bool, Fail> {
    if !is_commit(actions) {
        return Ok(false);
    }
    let written = write_commit(alloc, actions)?;
    Ok(written.as_slice() == lines)
}

/// Lists of actions, each with the flaw of its text.
const COMMITS: [(&str, &str); 22] = [
    ("add a x1@4", ""),
    ("add a x1; add a x2", ""),
    ("remove a x1; add a x2; add b x1", ""),
    ("remove a; add a x1@4", ""),
    ("add a x1; add a x1@4; add a x1@40; add a", ""),
    ("add x1; add x x1; remove ux1@4; add a x1@4", ""),
    ("set d; set e; unset D", ""),
    ("unset d", ""),
    ("set a; add a; remove a x1", ""),
    ("add a; add a", "line 3: add a"),
    ("add a x1; add a x1", "line 3: add a"),
    ("add a x1@4; remove a x1@4", "line 3: remove a"),
    ("remove a x1; add a x2; add a x1", "line 4: add a"),
    (
        "add a x1; add b x1; add a x1@0; remove b x1",
        "line 5: remove b",
    ),
    ("set d; unset d", "line 3: domainMetadata d"),
    ("unset d; set e; set d; set e", "line 4: domainMetadata d"),
    ("add a x1@x", "line 2: add without deletionVector"),
    (
        "remove a; remove a x1@-4",
        "line 3: remove without deletionVector",
    ),
    (
        "add a x1@4; add a x1@5; add a x1@x",
        "line 4: add without deletionVector",
    ),
    ("add a x1@4; add a x1@4; add a x1@x", "line 3: add a"),
    ("set", "line 2: domainMetadata without domain"),
    ("set d; unset", "line 3: domainMetadata without domain"),
];

#[test]
fn files_and_domains_stand_once(rt: HostRuntime) -> Result<(), Fail> {
    let alloc = rt.alloc();
    for (text, wanted) in COMMITS {
        let actions = actions(alloc, text)?;
        let lines = lines(alloc, actions.as_slice())?;
        let written = is_written(alloc, actions.as_slice(), lines.as_slice())?;
        let flaw = flaw(alloc, lines.as_slice(), actions.as_slice())?;
        assert_eq!(rt; flaw.as_str(), wanted, "{text}");
        assert_eq!(rt; written, wanted.is_empty(), "{text}");
    }
    Ok(())
}
