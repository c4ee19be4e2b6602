//! Commits in short, for tests: an action is a few words, actions stand with a `;` between them, and commits with a `/` between them.
//! Nothing is promised of what is read.
#![tactic(auto)]

use action_types::{
    Action, Add, Domain, Format, Info, Meta, Name, Names, Pairs, Protocol, Remove, Txn, Vector,
};
use reconcile::State;
use std::alloc::{AllocError, Global};

/// The words of a text as a list of names.
pub fn names(alloc: Global, text: &str) -> Result<Names, AllocError> {
    let mut list = Names::new(alloc);
    for word in text.split_whitespace() {
        list.push(Name::from_str(alloc, word)?)?;
    }
    Ok(list)
}

/// A protocol of these versions and features.
pub fn protocol(
    alloc: Global,
    versions: (i64, i64),
    readers: &str,
    writers: &str,
) -> Result<Protocol, AllocError> {
    Ok(Protocol {
        reader: versions.0,
        writer: versions.1,
        reader_features: Some(names(alloc, readers)?),
        writer_features: Some(names(alloc, writers)?),
    })
}

/// Adds a property that is `true`.
fn switch_on(alloc: Global, pairs: &mut Pairs, name: &str) -> Result<(), AllocError> {
    let on = Name::from_str(alloc, "true")?;
    pairs.push(Name::from_str(alloc, name)?, Some(on))?;
    Ok(())
}

/// The properties: `off` lacks that of in-commit timestamps.
fn configuration(alloc: Global, form: &str) -> Result<Pairs, AllocError> {
    let mut pairs = Pairs::new(alloc);
    if form == "appendOnly" {
        switch_on(alloc, &mut pairs, "delta.appendOnly")?;
    }
    if form != "off" {
        switch_on(alloc, &mut pairs, "delta.enableInCommitTimestamps")?;
    }
    Ok(pairs)
}

fn schema(form: &str) -> &'static str {
    if form == "invariants" {
        "{\"delta.invariants\":{}}"
    } else {
        "{\"type\":\"struct\",\"fields\":[]}"
    }
}

fn parquet(alloc: Global) -> Result<Format, AllocError> {
    let provider = Name::from_str(alloc, "parquet")?;
    Ok(Format {
        provider,
        options: Pairs::new(alloc),
    })
}

/// A metaData, with a partition column where its form is `columns`.
pub fn meta(alloc: Global, form: &str, column: &str) -> Result<Meta, AllocError> {
    let configuration = configuration(alloc, form)?;
    let format = parquet(alloc)?;
    let id = Name::from_str(alloc, "t1")?;
    let columns = names(alloc, if form == "columns" { column } else { "" })?;
    let schema = Name::from_str(alloc, schema(form))?;
    Ok(Meta {
        configuration,
        created: None,
        description: None,
        format,
        id,
        name: None,
        columns,
        schema,
    })
}

/// The path of a file in short: a path, or a path, `#` and a vector.
pub fn path_of(file: &str) -> &str {
    match file.split_once('#') {
        Some((path, _)) => path,
        None => file,
    }
}

/// The vector of a file in short, if it has one: a locator, or a locator, `@` and an offset.
pub fn vector_of(alloc: Global, file: &str) -> Result<Option<Vector>, AllocError> {
    match file.split_once('#') {
        Some((_, text)) => Ok(Some(vector(alloc, text)?)),
        None => Ok(None),
    }
}

fn vector(alloc: Global, text: &str) -> Result<Vector, AllocError> {
    let storage = Name::from_str(alloc, "u")?;
    let locator = Name::from_str(alloc, text.split('@').next().unwrap_or(""))?;
    Ok(Vector {
        storage,
        locator,
        offset: text.split_once('@').map(|p| number(p.1)),
        size: 40,
        cardinality: 6,
    })
}

/// A domain with a configuration.
pub fn domain(alloc: Global, name: &str, text: &str, removed: bool) -> Result<Domain, AllocError> {
    let configuration = Name::from_str(alloc, text)?;
    let domain = Name::from_str(alloc, name)?;
    Ok(Domain {
        configuration,
        domain,
        removed,
    })
}

/// An add of a file in short, of so many bytes.
pub fn add(alloc: Global, file: &str, size: i64) -> Result<Add, AllocError> {
    let path = Name::from_str(alloc, path_of(file))?;
    let vector = vector_of(alloc, file)?;
    Ok(Add {
        change: true,
        modified: 5,
        values: Pairs::new(alloc),
        path,
        size,
        stats: None,
        tags: None,
        vector,
    })
}

/// An add of a file of 10 bytes, with a value for a column if one is named.
fn add_with(alloc: Global, path: &str, column: &str) -> Result<Add, AllocError> {
    let mut add = add(alloc, path, 10)?;
    if !column.is_empty() {
        add.values.push(Name::from_str(alloc, column)?, None)?;
    }
    Ok(add)
}

/// A remove of a file in short, at a time if one is given.
pub fn remove(alloc: Global, file: &str, deleted: Option<i64>) -> Result<Remove, AllocError> {
    let path = Name::from_str(alloc, path_of(file))?;
    let vector = vector_of(alloc, file)?;
    Ok(Remove {
        change: true,
        deleted,
        extended: None,
        values: None,
        path,
        size: None,
        vector,
    })
}

/// The number that a word writes.
fn number(word: &str) -> i64 {
    word.parse::<i64>().unwrap_or(0)
}

/// The time that a word writes, if there is one.
fn time(word: &str) -> Option<i64> {
    if word.is_empty() {
        None
    } else {
        Some(number(word))
    }
}

/// A file action: `add` and `same` of a file (without a change), `remove` and `keep` (without one). The file
/// is a path, or a path, `#` and a vector.
fn file_action(alloc: Global, kind: &str, path: &str, more: &str) -> Result<Action, AllocError> {
    match kind {
        "add" => Ok(Action::Add(add_with(alloc, path, more)?)),
        "same" => {
            let mut add = add_with(alloc, path, more)?;
            add.change = false;
            Ok(Action::Add(add))
        }
        "keep" => {
            let mut remove = remove(alloc, path, None)?;
            remove.change = false;
            Ok(Action::Remove(remove))
        }
        _ => Ok(Action::Remove(remove(alloc, path, time(more))?)),
    }
}

/// A protocol with one more feature than a table needs, if one is named: among the writers' and, where it is
/// `deletionVectors`, among the readers' too.
fn table_protocol(alloc: Global, feature: &str) -> Result<Protocol, AllocError> {
    let writers = format!(in alloc; "catalogManaged inCommitTimestamp {feature}")?;
    let readers = if feature == "deletionVectors" {
        "catalogManaged deletionVectors"
    } else {
        "catalogManaged"
    };
    protocol(alloc, (3, 7), readers, writers.as_str())
}

/// The action that a few words name.
fn action(alloc: Global, text: &str) -> Result<Action, AllocError> {
    let mut words = text.split_whitespace();
    let kind = words.next().unwrap_or("");
    let first = words.next().unwrap_or("");
    let second = words.next().unwrap_or("");
    match kind {
        "info" => Ok(Action::Info(Info {
            time: number(first),
            txn_id: None,
        })),
        "protocol" => Ok(Action::Protocol(table_protocol(alloc, first)?)),
        "meta" => Ok(Action::Meta(meta(alloc, first, second)?)),
        "txn" => Ok(Action::Txn(Txn {
            app: Name::from_str(alloc, first)?,
            updated: None,
            number: number(second),
        })),
        "domain" => Ok(Action::Domain(domain(alloc, first, second, false)?)),
        "undomain" => Ok(Action::Domain(domain(alloc, first, second, true)?)),
        _ => file_action(alloc, kind, first, second),
    }
}

/// The actions that a text names.
pub fn commit(alloc: Global, text: &str) -> Result<Vec<Action>, AllocError> {
    let mut actions = Vec::new(alloc);
    for part in text.split(';') {
        if !part.is_empty() {
            actions.push(action(alloc, part)?)?;
        }
    }
    Ok(actions)
}

/// The state after one more commit.
pub fn applied(alloc: Global, state: State, text: &str) -> Result<State, AllocError> {
    let commit = commit(alloc, text)?;
    Ok(state.apply(commit.as_slice())?)
}

/// The state of one or two commits.
pub fn state(alloc: Global, text: &str) -> Result<State, AllocError> {
    let first = text.split('/').next().unwrap_or("");
    let state = applied(alloc, State::empty(alloc), first)?;
    match text.split_once('/') {
        Some((_, second)) => applied(alloc, state, second),
        None => Ok(state),
    }
}
