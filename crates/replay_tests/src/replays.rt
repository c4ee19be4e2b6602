//! The state of a list of commits, and what a plain search of the list finds.

use action_types::{Action, Info, Name, Txn, Vector};
use commit_shorts::{add, domain, meta, path_of, protocol, remove, vector_of};
use plain_replay::plain;
use reconcile::{Key, NewestFirst, State};
use std::alloc::{AllocError, Global};
use std::test::Fail;

/// A kind of action.
#[derive(Clone, Copy)]
enum Kind {
    Info,
    Protocol,
    Meta,
    Txn,
    Domain,
    Undomain,
    Remove,
    Add,
}

/// An action in short: its kind, the file, application or domain that it names, and its number (a time, a
/// version or a size).
type Short = (Kind, &'static str, i64);

fn numbered_protocol(alloc: Global, reader: i64) -> Result<Action, Fail> {
    Ok(Action::Protocol(protocol(alloc, (reader, 7), "", "")?))
}

fn numbered_meta(alloc: Global, created: i64) -> Result<Action, Fail> {
    let mut meta = meta(alloc, "", "")?;
    meta.created = Some(created);
    Ok(Action::Meta(meta))
}

fn numbered_txn(alloc: Global, app: &str, number: i64) -> Result<Action, Fail> {
    let app = Name::from_str(alloc, app)?;
    Ok(Action::Txn(Txn {
        app,
        updated: None,
        number,
    }))
}

fn action(alloc: Global, short: Short) -> Result<Action, Fail> {
    let (kind, name, number) = short;
    match kind {
        Kind::Info => Ok(Action::Info(Info {
            time: number,
            txn_id: None,
        })),
        Kind::Protocol => numbered_protocol(alloc, number),
        Kind::Meta => numbered_meta(alloc, number),
        Kind::Txn => numbered_txn(alloc, name, number),
        Kind::Domain => Ok(Action::Domain(domain(alloc, name, "c", false)?)),
        Kind::Undomain => Ok(Action::Domain(domain(alloc, name, "c", true)?)),
        Kind::Remove => Ok(Action::Remove(remove(alloc, name, Some(number))?)),
        Kind::Add => Ok(Action::Add(add(alloc, name, number)?)),
    }
}

fn commit(alloc: Global, shorts: &[Short]) -> Result<Vec<Action>, Fail> {
    let mut actions = Vec::new(alloc);
    for short in shorts {
        actions.push(action(alloc, *short)?)?;
    }
    Ok(actions)
}

fn state_of(alloc: Global, commits: &[Vec<Action>]) -> Result<State, AllocError> {
    let mut state = State::empty(alloc);
    for commit in commits {
        state = state.apply(commit.as_slice())?;
    }
    Ok(state)
}

/// What is seen of the file `a` and of the application `A`.
#[derive(PartialEq, Debug, Clone, Copy)]
struct Seen {
    size: Option<i64>,
    deleted: Option<i64>,
    number: Option<i64>,
    time: Option<i64>,
}

fn look_at(state: &State) -> Seen {
    let key = Key {
        path: "a",
        vector: None,
    };
    Seen {
        size: state.live(key).map(|add| add.size),
        deleted: state.gone(key).and_then(|remove| remove.deleted),
        number: state.number("A"),
        time: state.time(),
    }
}

/// The commits of a table whose file is added, removed and added again.
const WORKED: [[Short; 3]; 4] = [
    [
        (Kind::Info, "", 1000),
        (Kind::Protocol, "", 3),
        (Kind::Meta, "", 1000),
    ],
    [
        (Kind::Info, "", 1001),
        (Kind::Txn, "A", 1),
        (Kind::Add, "a", 10),
    ],
    [
        (Kind::Info, "", 1002),
        (Kind::Txn, "A", 2),
        (Kind::Remove, "a", 1002),
    ],
    [
        (Kind::Info, "", 1003),
        (Kind::Txn, "A", 3),
        (Kind::Add, "a", 30),
    ],
];

/// The state of the first commits of that table.
fn worked_state(alloc: Global, len: usize) -> Result<State, Fail> {
    let mut state = State::empty(alloc);
    for shorts in &WORKED[..len.min(4)] {
        state = state.apply(commit(alloc, shorts)?.as_slice())?;
    }
    Ok(state)
}

fn worked_seen(alloc: Global, len: usize) -> Result<Seen, Fail> {
    Ok(look_at(&worked_state(alloc, len)?))
}

fn copy_seen(alloc: Global, time: i64) -> Result<Seen, Fail> {
    let copy = worked_state(alloc, 4)?.copy()?;
    Ok(look_at(&copy.with_time(time)))
}

/// The state of that table, its commits read from the newest one back down to one, over the state of those
/// before.
fn newest_state(alloc: Global, base: usize) -> Result<State, Fail> {
    let mut newest = NewestFirst::new(alloc);
    for shorts in WORKED[base.min(4)..].iter().rev() {
        newest = newest.older(commit(alloc, shorts)?.as_slice())?;
    }
    Ok(newest.over(worked_state(alloc, base)?)?)
}

fn newest_seen(alloc: Global, base: usize) -> Result<Seen, Fail> {
    Ok(look_at(&newest_state(alloc, base)?))
}

/// Whether the state of that table is the one of its first commits, in both orders of asking.
fn same_as_first(alloc: Global, state: State, len: usize) -> Result<bool, Fail> {
    let first = worked_state(alloc, len)?;
    Ok(state.same_table(&first) && first.same_table(&state))
}

#[test]
fn remove_and_add_again(rt: HostRuntime) -> Result<(), Fail> {
    let removed = Seen {
        size: None,
        deleted: Some(1002),
        number: Some(2),
        time: Some(1002),
    };
    let added = Seen {
        size: Some(30),
        deleted: None,
        number: Some(3),
        time: Some(1003),
    };
    assert_eq!(rt; worked_seen(rt.alloc(), 3)?, removed);
    assert_eq!(rt; worked_seen(rt.alloc(), 4)?, added);
    assert_eq!(rt; copy_seen(rt.alloc(), 1003)?, added);
    for base in 0..5usize {
        assert_eq!(rt; newest_seen(rt.alloc(), base)?, added);
    }
    Ok(())
}

#[test]
fn one_table_whatever_the_time(rt: HostRuntime) -> Result<(), Fail> {
    let copy = worked_state(rt.alloc(), 4)?.copy()?.with_time(5);
    assert!(rt; same_as_first(rt.alloc(), copy, 4)?);
    for base in 0..5usize {
        assert!(rt; same_as_first(rt.alloc(), newest_state(rt.alloc(), base)?, 4)?);
    }
    for len in 0..4usize {
        assert!(rt;
            !same_as_first(rt.alloc(), worked_state(rt.alloc(), 4)?, len)?,
            "{len} commits"
        );
    }
    Ok(())
}

const FILES: [&str; 8] = ["a", "a#x", "a#x@1", "a#x@10", "b", "b#", "b/c", "é"];

/// The action of a number: of each kind, over the eight files, whose words are ids of applications and names
/// of domains too.
fn made_short(number: u64) -> Short {
    let kind = match number % 10 {
        0 => Kind::Info,
        1 => Kind::Protocol,
        2 => Kind::Meta,
        3 => Kind::Txn,
        4 => Kind::Domain,
        5 => Kind::Undomain,
        6 | 7 => Kind::Remove,
        _ => Kind::Add,
    };
    (
        kind,
        FILES[(number / 10 % 8) as usize],
        (number / 80 % 1000) as i64,
    )
}

/// A commit of two made actions.
fn made(seed: u64) -> [Short; 2] {
    let first = seed.wrapping_mul(6364136223846793005);
    let second = first.wrapping_add(1442695040888963407);
    [made_short(first >> 33), made_short(second >> 33)]
}

/// A made list of commits.
fn made_log(alloc: Global, seed: u64, len: u64) -> Result<Vec<Vec<Action>>, Fail> {
    let mut commits = Vec::new(alloc);
    for version in 0..len {
        let shorts = made(seed.wrapping_add(version));
        commits.push(commit(alloc, &shorts)?)?;
    }
    Ok(commits)
}

fn files_agree(state: &State, commits: &[Vec<Action>]) -> bool {
    for file in state.files() {
        if plain::live(commits, file.key()).map(|a| a.size) != Some(file.size) {
            return false;
        }
    }
    true
}

fn tombstones_agree(state: &State, commits: &[Vec<Action>]) -> bool {
    for gone in state.tombstones() {
        if plain::gone(commits, gone.key()).map(|r| r.deleted) != Some(gone.deleted) {
            return false;
        }
    }
    true
}

fn txns_agree(state: &State, commits: &[Vec<Action>]) -> bool {
    for txn in state.txns() {
        if plain::number(commits, txn.app.as_str()) != Some(txn.number) {
            return false;
        }
    }
    true
}

fn domains_agree(state: &State, commits: &[Vec<Action>]) -> bool {
    for domain in state.domains() {
        if plain::domain(commits, domain.domain.as_str()) != Some(domain) {
            return false;
        }
    }
    true
}

/// Whether the look-ups of a file are what the plain search finds.
fn key_agrees(state: &State, commits: &[Vec<Action>], key: Key<'_>) -> bool {
    state.live(key).map(|a| a.size) == plain::live(commits, key).map(|a| a.size)
        && state.gone(key).map(|r| r.deleted) == plain::gone(commits, key).map(|r| r.deleted)
}

/// Whether the look-ups of a word, which is an application's id and a domain's name, are what the plain
/// search finds.
fn name_agrees(state: &State, commits: &[Vec<Action>], name: &str) -> bool {
    state.number(name) == plain::number(commits, name)
        && state.domain(name).is_some() == plain::domain(commits, name).is_some()
}

fn key_of<'a>(path: &'a str, vector: &'a Option<Vector>) -> Key<'a> {
    let vector = vector.as_ref();
    Key { path, vector }
}

/// Whether the look-ups of a file in short are what the plain search finds.
fn file_agrees(
    alloc: Global,
    state: &State,
    commits: &[Vec<Action>],
    file: &str,
) -> Result<bool, Fail> {
    let vector = vector_of(alloc, file)?;
    let key = key_of(path_of(file), &vector);
    Ok(key_agrees(state, commits, key) && name_agrees(state, commits, file))
}

fn look_ups_agree(alloc: Global, state: &State, commits: &[Vec<Action>]) -> Result<bool, Fail> {
    for file in FILES {
        if !file_agrees(alloc, state, commits, file)? {
            return Ok(false);
        }
    }
    Ok(true)
}

fn table_agrees(state: &State, commits: &[Vec<Action>]) -> bool {
    state.time() == plain::time(commits)
        && state.protocol().map(|p| p.reader) == plain::protocol(commits).map(|p| p.reader)
        && state.meta().map(|m| m.created) == plain::meta(commits).map(|m| m.created)
}

fn same(state: &State, commits: &[Vec<Action>]) -> bool {
    files_agree(state, commits)
        && tombstones_agree(state, commits)
        && txns_agree(state, commits)
        && domains_agree(state, commits)
        && table_agrees(state, commits)
}

fn as_searched(alloc: Global, state: &State, commits: &[Vec<Action>]) -> Result<bool, Fail> {
    Ok(same(state, commits) && look_ups_agree(alloc, state, commits)?)
}

/// The state of commits, the last of them read from the newest one back.
fn newest_over(alloc: Global, commits: &[Vec<Action>], base: usize) -> Result<State, Fail> {
    let base = base.min(commits.len());
    let mut newest = NewestFirst::new(alloc);
    for commit in commits[base..].iter().rev() {
        newest = newest.older(commit.as_slice())?;
    }
    Ok(newest.over(state_of(alloc, &commits[..base])?)?)
}

fn made_commit(alloc: Global, seed: u64) -> Result<Vec<Action>, Fail> {
    commit(alloc, &made(seed))
}

/// The state of a made list of commits, each given away: the first ones applied, the others read from the
/// newest one back.
fn owned_over(alloc: Global, seed: u64, base: u64, len: u64) -> Result<State, Fail> {
    let mut state = State::empty(alloc);
    for version in 0..base {
        state = state.apply_owned(made_commit(alloc, seed.wrapping_add(version))?)?;
    }
    let mut newest = NewestFirst::new(alloc);
    for version in (base..len).rev() {
        newest = newest.older_owned(made_commit(alloc, seed.wrapping_add(version))?)?;
    }
    Ok(newest.over(state)?)
}

/// Whether a state of these commits has the table that applying them gives, each seen from the other.
fn as_applied(alloc: Global, state: &State, commits: &[Vec<Action>]) -> Result<bool, Fail> {
    let applied = state_of(alloc, commits)?;
    Ok(applied.same_table(state) && state.same_table(&applied))
}

fn applied_agrees(alloc: Global, commits: &[Vec<Action>]) -> Result<bool, Fail> {
    let applied = state_of(alloc, commits)?;
    as_searched(alloc, &applied, commits)
}

/// The same with two thirds of the commits read from the newest one back.
fn newest_agrees(alloc: Global, commits: &[Vec<Action>]) -> Result<bool, Fail> {
    let newest = newest_over(alloc, commits, commits.len() / 3)?;
    Ok(as_searched(alloc, &newest, commits)? && as_applied(alloc, &newest, commits)?)
}

/// The same with each commit taken by value.
fn owned_agrees(alloc: Global, commits: &[Vec<Action>], seed: u64, len: u64) -> Result<bool, Fail> {
    let owned = owned_over(alloc, seed, len / 3, len)?;
    Ok(as_searched(alloc, &owned, commits)? && as_applied(alloc, &owned, commits)?)
}

/// Whether the state of a made list of commits, however it is made, is what the plain search finds.
fn made_log_agrees(alloc: Global, seed: u64, len: u64) -> Result<bool, Fail> {
    let commits = made_log(alloc, seed, len)?;
    let commits = commits.as_slice();
    Ok(
        applied_agrees(alloc, commits)?
            && newest_agrees(alloc, commits)?
            && owned_agrees(alloc, commits, seed, len)?,
    )
}

#[test]
fn made_logs_as_the_plain_search(rt: HostRuntime) -> Result<(), Fail> {
    for seed in 0..40u64 {
        assert!(rt;
            made_log_agrees(rt.alloc(), seed * 100, seed)?,
            "log {seed}"
        );
    }
    assert!(rt; made_log_agrees(rt.alloc(), 4000, 240)?);
    Ok(())
}

/// Commits in short, and the files, tombstones and domains of their state in order: a file as its path and,
/// behind a `#`, the unique id of its vector, a domain as its name, `=` and its configuration.
struct Row {
    log: &'static str,
    files: &'static str,
    removed: &'static str,
    domains: &'static str,
}

const ROWS: [Row; 9] = [
    // One path under two vectors and without one: three files.
    Row {
        log: "info 1;add a;add a#x1@4;add a#x1",
        files: "a a#ux1 a#ux1@4 ",
        removed: "",
        domains: "",
    },
    // A remove of one of two vectors leaves the other.
    Row {
        log: "info 1;add a#x1@4;add a#x1@5/info 2;remove a#x1@4",
        files: "a#ux1@5 ",
        removed: "a#ux1@4 ",
        domains: "",
    },
    // A remove of the file without a vector leaves the vector's.
    Row {
        log: "info 1;add a;add a#x1@4/info 2;remove a",
        files: "a#ux1@4 ",
        removed: "a ",
        domains: "",
    },
    // The same file with a vector in place of none, and back.
    Row {
        log: "info 1;add a#x1@4/info 2;remove a#x1@4;add a",
        files: "a ",
        removed: "a#ux1@4 ",
        domains: "",
    },
    // A file added again under the same unique id.
    Row {
        log: "info 1;add a#x1@4/info 2;add a#x1@4",
        files: "a#ux1@4 ",
        removed: "",
        domains: "",
    },
    // By path, and under one path by the bytes of the unique id.
    Row {
        log: "info 1;add b;add a-b;add a#y;add b#x;add a#x@9/info 2;add a;add a#x@10",
        files: "a a#ux@10 a#ux@9 a#uy a-b b b#ux ",
        removed: "",
        domains: "",
    },
    // Removed files are in the same order.
    Row {
        log: "info 1;add b;add a#y;add a#x;add a/info 2;remove b;remove a#y;remove a;remove a#x",
        files: "",
        removed: "a a#ux a#uy b ",
        domains: "",
    },
    // Domains by name, each with its last configuration.
    Row {
        log: "info 1;domain e 1;domain d 1/info 2;domain d 2",
        files: "",
        removed: "",
        domains: "d=2 e=1 ",
    },
    // A removed domain is absent.
    Row {
        log: "info 1;domain d c;domain e c/info 2;undomain d c",
        files: "",
        removed: "",
        domains: "e=c ",
    },
];

/// A file behind those that are listed.
fn list_file(alloc: Global, text: &mut String, key: Key<'_>) -> Result<(), Fail> {
    text.push_str(key.path)?;
    if let Some(vector) = key.vector {
        text.push('#')?;
        text.push_str(vector.unique_id(alloc)?.as_str())?;
    }
    text.push(' ')?;
    Ok(())
}

fn listed_files(alloc: Global, state: &State) -> Result<String, Fail> {
    let mut text = String::new(alloc);
    for add in state.files() {
        list_file(alloc, &mut text, add.key())?;
    }
    Ok(text)
}

fn listed_tombstones(alloc: Global, state: &State) -> Result<String, Fail> {
    let mut text = String::new(alloc);
    for remove in state.tombstones() {
        list_file(alloc, &mut text, remove.key())?;
    }
    Ok(text)
}

fn listed_domains(alloc: Global, state: &State) -> Result<String, Fail> {
    let mut text = String::new(alloc);
    for domain in state.domains() {
        text.push_str(domain.domain.as_str())?;
        text.push('=')?;
        text.push_str(domain.configuration.as_str())?;
        text.push(' ')?;
    }
    Ok(text)
}

/// Whether the state of a row's commits is listed as the row says.
fn row_holds(alloc: Global, row: &Row) -> Result<bool, Fail> {
    let state = commit_shorts::state(alloc, row.log)?;
    Ok(
        listed_files(alloc, &state)?.as_str() == row.files
            && listed_tombstones(alloc, &state)?.as_str() == row.removed
            && listed_domains(alloc, &state)?.as_str() == row.domains,
    )
}

#[test]
fn files_and_domains_in_order(rt: HostRuntime) -> Result<(), Fail> {
    for row in &ROWS {
        assert!(rt; row_holds(rt.alloc(), row)?, "{}", row.log);
    }
    Ok(())
}
