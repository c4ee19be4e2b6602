//! Stores over a directory.

use crate::small_files::SmallFiles;
use object_store::{Bytes, DirStore, Gone, HostDisk, Put, Store, StoreError};
use std::alloc::Global;
use std::fs::File;
use std::os::unix::fs::symlink;
use std::test::Fail;
use std::{fs, io};

fn is_send<T: Send>(_value: &T) {}

/// Makes the folder at that path anew, with `_staged_commits` in it.
fn make_folder(rt: &HostRuntime, path: &str) -> io::Result<()> {
    let _ = fs::remove_dir_all(rt, path);
    fs::create_dir(rt, path)?;
    let staged = format!(in rt.alloc(); "{path}/_staged_commits")?;
    fs::create_dir(rt, staged.as_str())
}

/// A store over a new folder at that path.
fn new_store(rt: HostRuntime, path: &str) -> io::Result<DirStore<HostDisk<HostRuntime>>> {
    make_folder(&rt, path)?;
    DirStore::open(rt, rt.alloc(), path)
}

fn read_said(read: Result<Bytes, StoreError>) -> &'static str {
    match read {
        Ok(Bytes::Whole(bytes)) => {
            if bytes.len() == 2 {
                "two bytes, "
            } else {
                "other bytes, "
            }
        }
        Ok(Bytes::Absent) => "absent, ",
        Err(StoreError::Failed) => "fault, ",
        Err(StoreError::Memory) => "memory, ",
    }
}

fn put_said(put: Result<Put, StoreError>) -> &'static str {
    match put {
        Ok(Put::Done) => "put, ",
        Ok(Put::There) => "there, ",
        Err(StoreError::Failed) => "fault, ",
        Err(StoreError::Memory) => "memory, ",
    }
}

fn delete_said(gone: Result<Gone, StoreError>) -> &'static str {
    match gone {
        Ok(Gone::Done) => "gone",
        Ok(Gone::Absent) => "absent",
        Err(StoreError::Failed) => "fault",
        Err(StoreError::Memory) => "memory",
    }
}

/// What each call answers of a name: a reading, a put of two bytes, and a deletion.
fn answers<S: Store>(alloc: Global, store: &mut S, name: &str) -> io::Result<String> {
    let mut said = String::new(alloc);
    said.push_str(read_said(store.get(alloc, name)))?;
    said.push_str(put_said(store.put_new(alloc, name, b"ab")))?;
    said.push_str(delete_said(store.delete(alloc, name)))?;
    Ok(said)
}

/// The names that a store lists, each with a space after it.
fn names<S: Store>(alloc: Global, store: &mut S) -> io::Result<String> {
    let mut said = String::new(alloc);
    match store.list(alloc) {
        Ok(names) => {
            for name in &names {
                said.push_str(name.as_str())?;
                said.push_str(" ")?;
            }
        }
        Err(StoreError::Failed) => said.push_str("fault")?,
        Err(StoreError::Memory) => said.push_str("memory")?,
    }
    Ok(said)
}

#[test]
fn answers_over_a_folder(rt: HostRuntime) -> Result<(), Fail> {
    let alloc = rt.alloc();
    let mut store = new_store(rt, "folder_answers")?;
    is_send(&store);
    for name in ["b", "_staged_commits/b"] {
        assert_eq!(rt;
            answers(alloc, &mut store, name)?.as_str(),
            "absent, put, gone"
        );
        assert_eq!(rt; store.put_new(alloc, name, b"12"), Ok(Put::Done));
        assert_eq!(rt; store.put_new(alloc, name, b"345"), Ok(Put::There));
        assert_eq!(rt;
            answers(alloc, &mut store, name)?.as_str(),
            "two bytes, there, gone"
        );
    }
    assert_eq!(rt; names(alloc, &mut store)?.as_str(), "");
    assert_eq!(rt; store.faults(), 0);
    fs::remove_dir_all(&rt, "folder_answers")?;
    Ok(())
}

#[test]
fn second_store_sees_the_files(rt: HostRuntime) -> Result<(), Fail> {
    let alloc = rt.alloc();
    let mut store = new_store(rt, "folder_second")?;
    for name in ["b", "_staged_commits/x", "a", "_staged_commits/c", "Z"] {
        assert_eq!(rt; store.put_new(alloc, name, b"12"), Ok(Put::Done));
    }
    let mut second = DirStore::open(rt, alloc, "folder_second")?;
    let want = "Z _staged_commits/c _staged_commits/x a b ";
    assert_eq!(rt; names(alloc, &mut second)?.as_str(), want);
    assert_eq!(rt;
        answers(alloc, &mut second, "a")?.as_str(),
        "two bytes, there, gone"
    );
    assert_eq!(rt; second.put_new(alloc, "d", b"1"), Ok(Put::Done));
    assert_eq!(rt;
        names(alloc, &mut store)?.as_str(),
        "Z _staged_commits/c _staged_commits/x b d "
    );
    fs::remove_dir_all(&rt, "folder_second")?;
    Ok(())
}

/// Names of no file of the folder.
const OUTSIDE: [&str; 14] = [
    "",
    ".",
    "..",
    "/b",
    "../b",
    "./b",
    "a/b",
    "a//b",
    "b/",
    "_staged_commits/",
    "_staged_commits/..",
    "_staged_commits/../b",
    ".put-0",
    "_staged_commits/.put-1",
];

#[test]
fn names_outside_are_faults(rt: HostRuntime) -> Result<(), Fail> {
    let alloc = rt.alloc();
    let mut store = new_store(rt, "folder_outside")?;
    fs::create_dir(&rt, "folder_outside/a")?;
    fs::write(&rt, "folder_outside/a/b", "12")?;
    for name in OUTSIDE {
        assert_eq!(rt;
            answers(alloc, &mut store, name)?.as_str(),
            "fault, fault, fault",
            "{name:?}"
        );
    }
    assert_eq!(rt; store.faults(), 42);
    assert_eq!(rt; names(alloc, &mut store)?.as_str(), "");
    assert!(rt; fs::exists(&rt, "folder_outside/a/b")?);
    fs::remove_dir_all(&rt, "folder_outside")?;
    Ok(())
}

#[test]
fn folder_that_is_missing(rt: HostRuntime) -> Result<(), Fail> {
    let alloc = rt.alloc();
    let _ = fs::remove_dir_all(&rt, "folder_missing");
    assert!(rt; DirStore::open(rt, alloc, "folder_missing").is_err());
    fs::create_dir(&rt, "folder_missing")?;
    assert!(rt; DirStore::open(rt, alloc, "folder_missing").is_err());
    let mut store = new_store(rt, "folder_missing")?;
    fs::remove_dir(&rt, "folder_missing/_staged_commits")?;
    assert_eq!(rt;
        answers(alloc, &mut store, "_staged_commits/a")?.as_str(),
        "fault, fault, fault"
    );
    assert_eq!(rt;
        answers(alloc, &mut store, "a")?.as_str(),
        "absent, put, gone"
    );
    assert_eq!(rt; names(alloc, &mut store)?.as_str(), "fault");
    fs::remove_dir(&rt, "folder_missing")?;
    assert_eq!(rt;
        answers(alloc, &mut store, "a")?.as_str(),
        "fault, fault, fault"
    );
    assert_eq!(rt; store.faults(), 7);
    Ok(())
}

#[test]
fn what_is_no_file_is_not_read(rt: HostRuntime) -> Result<(), Fail> {
    let alloc = rt.alloc();
    let mut store = new_store(rt, "folder_links")?;
    fs::write(&rt, "folder_links_target", "12")?;
    symlink(&rt, "../folder_links_target", "folder_links/link")?;
    symlink(&rt, "nowhere", "folder_links/dangling")?;
    fs::create_dir(&rt, "folder_links/sub")?;
    assert_eq!(rt; names(alloc, &mut store)?.as_str(), "dangling link ");
    for name in ["link", "dangling"] {
        assert_eq!(rt;
            answers(alloc, &mut store, name)?.as_str(),
            "fault, there, gone"
        );
    }
    assert_eq!(rt;
        answers(alloc, &mut store, "sub")?.as_str(),
        "fault, there, fault"
    );
    assert!(rt; fs::exists(&rt, "folder_links_target")?);
    fs::remove_file(&rt, "folder_links_target")?;
    fs::remove_dir_all(&rt, "folder_links")?;
    Ok(())
}

#[test]
fn long_files(rt: HostRuntime) -> Result<(), Fail> {
    let alloc = rt.alloc();
    let mut store = new_store(rt, "folder_long")?;
    let file = File::create(&rt, "folder_long/longest")?;
    file.set_len((1 << 30) + 1)?;
    assert_eq!(rt;
        answers(alloc, &mut store, "longest")?.as_str(),
        "fault, there, gone"
    );
    let mut bytes = Vec::new(alloc);
    for number in 0..1_000_000u32 {
        bytes.push((number % 251) as u8)?;
    }
    assert_eq!(rt;
        store.put_new(alloc, "million", bytes.as_slice()),
        Ok(Put::Done)
    );
    let Ok(Bytes::Whole(read)) = store.get(alloc, "million") else {
        return Err(Fail::from("the file is read"));
    };
    assert!(rt; read.as_slice() == bytes.as_slice());
    fs::remove_dir_all(&rt, "folder_long")?;
    Ok(())
}

#[test]
fn name_that_is_not_utf8(rt: HostRuntime) -> Result<(), Fail> {
    let alloc = rt.alloc();
    let mut store = new_store(rt, "folder_utf8")?;
    assert_eq!(rt; store.put_new(alloc, "a", b"1"), Ok(Put::Done));
    assert!(rt; os::create(b"folder_utf8/_staged_commits/\xff") >= 0);
    assert_eq!(rt; names(alloc, &mut store)?.as_str(), "fault");
    assert_eq!(rt; store.faults(), 1);
    assert!(rt; DirStore::open(rt, alloc, "folder_utf8").is_ok());
    assert_eq!(rt; os::unlink(b"folder_utf8/_staged_commits/\xff"), 0);
    assert_eq!(rt; names(alloc, &mut store)?.as_str(), "a ");
    fs::remove_dir_all(&rt, "folder_utf8")?;
    Ok(())
}

#[test]
fn failed_write_leaves_no_file(rt: HostRuntime) -> Result<(), Fail> {
    let alloc = rt.alloc();
    make_folder(&rt, "folder_failed")?;
    let mut store = DirStore::open(SmallFiles { rt, room: 2 }, alloc, "folder_failed")?;
    assert_eq!(rt; store.put_new(alloc, "a", b"123"), Err(StoreError::Failed));
    assert_eq!(rt; store.faults(), 1);
    let mut left = 0u32;
    for entry in fs::read_dir(&rt, "folder_failed")? {
        let _entry = entry?;
        left = left.saturating_add(1);
    }
    assert_eq!(rt; left, 1);
    assert_eq!(rt;
        answers(alloc, &mut store, "a")?.as_str(),
        "absent, put, gone"
    );
    fs::remove_dir_all(&rt, "folder_failed")?;
    Ok(())
}

#[test]
fn what_a_kill_has_left_hinders_nothing(rt: HostRuntime) -> Result<(), Fail> {
    let alloc = rt.alloc();
    make_folder(&rt, "folder_killed")?;
    for path in [
        "folder_killed/.put-0",
        "folder_killed/_staged_commits/.put-1",
    ] {
        fs::write(&rt, path, "1")?;
    }
    let mut store = DirStore::open(rt, alloc, "folder_killed")?;
    for name in ["a", "_staged_commits/a", "b", "_staged_commits/b"] {
        assert_eq!(rt; store.put_new(alloc, name, b"12"), Ok(Put::Done));
    }
    let want = "_staged_commits/a _staged_commits/b a b ";
    assert_eq!(rt; names(alloc, &mut store)?.as_str(), want);
    assert!(rt; fs::exists(&rt, "folder_killed/.put-0")?);
    fs::remove_dir_all(&rt, "folder_killed")?;
    Ok(())
}
