//! The first conflict of a write with the commits that were ratified before it, and the least of names and of files.

use action_types::{Key, Name};
use commit_shorts::{add, commit, domain, names, remove, state};
use conflict_rules::{
    Adds, Clash, Domains, Intent, Level, Reads, Removes, first_conflict, first_conflict_of,
};
use least_names::{lesser, lesser_file};
use reconcile::State;
use std::alloc::Global;
use std::slice;
use std::test::Fail;

/// What an intent reads: `none`, `all`, or these paths.
fn reads(alloc: Global, text: &str) -> Result<Reads, Fail> {
    match text {
        "none" => Ok(Reads::None),
        "all" => Ok(Reads::All),
        _ => Ok(Reads::Paths(names(alloc, text)?)),
    }
}

/// The removes of these files.
fn removes(alloc: Global, removed: &str) -> Result<Removes, Fail> {
    let mut removes = Removes::new(alloc);
    for file in removed.split_whitespace() {
        removes.push(remove(alloc, file, None)?)?;
    }
    Ok(removes)
}

/// The adds of these files.
fn adds(alloc: Global, added: &str) -> Result<Adds, Fail> {
    let mut adds = Adds::new(alloc);
    for file in added.split_whitespace() {
        adds.push(add(alloc, file, 10)?)?;
    }
    Ok(adds)
}

/// Metadata of these domains.
fn domains(alloc: Global, named: &str) -> Result<Domains, Fail> {
    let mut domains = Domains::new(alloc);
    for name in named.split_whitespace() {
        domains.push(domain(alloc, name, "c", false)?)?;
    }
    Ok(domains)
}

/// An intent of the application A that reads these files, removes those, and has metadata of these domains.
fn intent(
    alloc: Global,
    level: Level,
    (read, removed, named): (&str, &str, &str),
) -> Result<Intent, Fail> {
    let app = Name::from_str(alloc, "A")?;
    let reads = reads(alloc, read)?;
    let adds = adds(alloc, "new")?;
    let removes = removes(alloc, removed)?;
    let domains = domains(alloc, named)?;
    Ok(Intent {
        app,
        number: 1,
        level,
        reads,
        adds,
        removes,
        domains,
        change: None,
    })
}

/// A key and, where it is a file with a deletion vector, the vector's unique id.
fn named(alloc: Global, key: Key) -> Result<String, Fail> {
    let path = key.path;
    match key.id(alloc)? {
        None => Ok(String::from_str(alloc, path)?),
        Some(id) => {
            let id = id.as_str();
            Ok(format!(in alloc; "{path} {id}")?)
        }
    }
}

/// What a conflict says, in a line.
fn said(alloc: Global, clash: Option<Clash>) -> Result<String, Fail> {
    match clash {
        None => Ok(String::from_str(alloc, "")?),
        Some(clash) => {
            let rule = clash.rule;
            let key = named(
                alloc,
                Key {
                    path: clash.key,
                    vector: clash.vector,
                },
            )?;
            Ok(format!(in alloc; "{rule:?} {key}")?)
        }
    }
}

/// The base: `a`, `b` and `c` with a vector are live, and `gone` is a tombstone.
fn base(alloc: Global) -> Result<State, Fail> {
    let log = "info; protocol; meta; add a; add b; add c#x1@4; add gone/info; remove gone";
    Ok(state(alloc, log)?)
}

/// What the conflict of an intent with a winner says, where a row is the reads, the removes, the winner and, if there
/// are any, the domains, with a `|` between them.
fn conflict(alloc: Global, level: Level, row: &str) -> Result<String, Fail> {
    let mut parts = row.split('|');
    let read = parts.next().unwrap_or("");
    let removed = parts.next().unwrap_or("");
    let winner = commit(alloc, parts.next().unwrap_or(""))?;
    let intent = intent(alloc, level, (read, removed, parts.next().unwrap_or("")))?;
    let base = base(alloc)?;
    said(alloc, first_conflict(&intent, &base, winner.as_slice()))
}

/// Reads, removes and a winner, and its conflict with a writer that is not serializable.
const CONFLICTS: [(&str, &str); 16] = [
    ("none||info; txn B; add x", ""),
    ("none||info; protocol", "Protocol "),
    ("none||info; meta", "Metadata "),
    ("none||info; meta; protocol", "Protocol "),
    ("none||info; txn A; meta", "Metadata "),
    ("none|a|info; txn A; remove a", "Transaction A"),
    ("none|a|info; remove a", "DeleteDelete a"),
    ("none|b a|info; remove b; remove a", "DeleteDelete a"),
    ("none|a|info; remove b", ""),
    ("b|a|info; remove b; remove a", "DeleteDelete a"),
    ("b||info; remove b", "DeleteRead b"),
    ("b||info; remove a", ""),
    ("all||info; remove b; remove a", "DeleteRead a"),
    ("all||info; remove gone", ""),
    ("all||info; add x", ""),
    ("all||info; remove gone; add x", "Append x"),
];

#[test]
fn conflicts(rt: HostRuntime) -> Result<(), Fail> {
    for (row, wanted) in CONFLICTS {
        let clash = conflict(rt.alloc(), Level::WriteSerializable, row)?;
        assert_eq!(rt; clash.as_str(), wanted, "{row}");
    }
    Ok(())
}

/// The same of files with deletion vectors, and of domains.
const VECTORS: [(&str, &str); 14] = [
    ("none|a#x1@4|info; remove a#x1@4", "DeleteDelete a ux1@4"),
    ("none|a|info; remove a#x1@4", ""),
    ("none|a#x1@4|info; remove a#x1@5; remove a", ""),
    (
        "none|a#x1@4 a|info; remove a#x1@4; remove a",
        "DeleteDelete a",
    ),
    (
        "none|a#x1@4 a#x1@10|info; remove a#x1@4; remove a#x1@10",
        "DeleteDelete a ux1@10",
    ),
    ("b||info; remove b#x1@4", "DeleteRead b ux1@4"),
    ("all||info; remove c#x1@4", "DeleteRead c ux1@4"),
    ("all||info; remove c; remove a#x1@4", ""),
    (
        "all||info; remove gone; add x#x1@4; add x#x1",
        "Append x ux1",
    ),
    ("none||info; domain d|d", "Domain d"),
    ("none||info; domain e; undomain d|d e", "Domain d"),
    ("none||info; domain e|d", ""),
    ("all||info; domain d", ""),
    ("none|a|info; domain d; remove a|d", "DeleteDelete a"),
];

#[test]
fn conflicts_of_vectors_and_domains(rt: HostRuntime) -> Result<(), Fail> {
    for (row, wanted) in VECTORS {
        let clash = conflict(rt.alloc(), Level::WriteSerializable, row)?;
        assert_eq!(rt; clash.as_str(), wanted, "{row}");
    }
    Ok(())
}

/// The same with a serializable writer.
const SERIALIZABLE: [(&str, &str); 5] = [
    ("none||info; add x; remove a", ""),
    ("all||info; add y; add x", "Append x"),
    ("all||info; same x", ""),
    ("all||info; add x; remove a", "DeleteRead a"),
    ("a||info; add x", ""),
];

#[test]
fn serializable_conflicts(rt: HostRuntime) -> Result<(), Fail> {
    for (row, wanted) in SERIALIZABLE {
        let clash = conflict(rt.alloc(), Level::Serializable, row)?;
        assert_eq!(rt; clash.as_str(), wanted, "{row}");
    }
    Ok(())
}

/// The place of the first winner that conflicts, where the only one does.
fn first_place(alloc: Global) -> Result<Option<usize>, Fail> {
    let intent = intent(alloc, Level::WriteSerializable, ("b", "a", ""))?;
    let winner = commit(alloc, "info; remove b; remove a")?;
    let base = base(alloc)?;
    let lowest = first_conflict_of(&intent, &base, slice::from_ref(&winner));
    Ok(lowest.map(|lowest| lowest.place))
}

#[test]
fn first_winner_is_named(rt: HostRuntime) -> Result<(), Fail> {
    assert_eq!(rt; first_place(rt.alloc())?, Some(0));
    Ok(())
}

#[test]
fn least_of_names(rt: HostRuntime) {
    let mut best = None;
    for name in ["b", "a/b", "a", "aa", "B", "é"] {
        best = lesser(best, name);
    }
    assert_eq!(rt; best, Some("B"));
}

/// The least of these files.
fn least_of(alloc: Global, text: &str) -> Result<String, Fail> {
    let adds = adds(alloc, text)?;
    let mut best = None;
    for add in adds.as_slice() {
        best = lesser_file(best, add.key());
    }
    match best {
        None => Ok(String::new(alloc)),
        Some(file) => named(alloc, file),
    }
}

/// Files and the least of them.
const FILES: [(&str, &str); 7] = [
    ("", ""),
    ("b a", "a"),
    ("a#x1@4 a a#x1", "a"),
    ("a#x1@4 a#x1", "a ux1"),
    ("a#x1@4 a#x1@10", "a ux1@10"),
    ("b a#x1@4", "a ux1@4"),
    ("aa a#x1@4", "a ux1@4"),
];

#[test]
fn least_of_files(rt: HostRuntime) -> Result<(), Fail> {
    for (text, wanted) in FILES {
        assert_eq!(rt; least_of(rt.alloc(), text)?.as_str(), wanted, "{text}");
    }
    Ok(())
}
