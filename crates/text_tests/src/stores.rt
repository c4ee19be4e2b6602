//! Stores of files.

use object_store::{Bytes, Fail, Gone, MemStore, Put, Store, StoreError};
use std::alloc::Global;
use std::test::Fail as Stop;

fn is_send<T: Send>(_value: &T) {}

/// What a generic caller meets: a name that is put, read, listed and removed.
fn turns<S: Store>(alloc: Global, store: &mut S) -> Result<(Put, Put, usize, Gone), StoreError> {
    let first = store.put_new(alloc, "b", b"2")?;
    let second = store.put_new(alloc, "b", b"3")?;
    let names = store.list(alloc)?;
    let gone = store.delete(alloc, "a")?;
    Ok((first, second, names.len(), gone))
}

fn read(alloc: Global, store: &mut MemStore, name: &str) -> Option<Vec<u8>> {
    match store.get(alloc, name) {
        Ok(Bytes::Whole(bytes)) => Some(bytes),
        _ => None,
    }
}

#[test]
fn answers_of_a_store_in_memory(rt: HostRuntime) -> Result<(), Stop> {
    let alloc = rt.alloc();
    let mut store = MemStore::new(alloc, Vec::new(alloc));
    is_send(&store);
    assert_eq!(rt;
        turns(alloc, &mut store)?,
        (Put::Done, Put::There, 1, Gone::Absent)
    );
    store.put_new(alloc, "a/c", b"")?;
    let names = store.list(alloc)?;
    assert_eq!(rt; names.len(), 2);
    assert_eq!(rt; names[0].as_str(), "a/c");
    let bytes = read(alloc, &mut store, "b").ok_or("b stands")?;
    assert_eq!(rt; bytes.as_slice(), b"2".as_slice());
    assert_eq!(rt; store.delete(alloc, "b")?, Gone::Done);
    assert!(rt; read(alloc, &mut store, "b").is_none());
    Ok(())
}

#[test]
fn listed_calls_fail(rt: HostRuntime) -> Result<(), Stop> {
    let alloc = rt.alloc();
    let fails = vec![in alloc;
        Fail {
            call: 1,
            took: true
        },
        Fail {
            call: 2,
            took: false
        },
    ]?;
    let mut store = MemStore::new(alloc, fails);
    assert!(rt; matches!(store.put_new(alloc, "a", b"1"), Err(StoreError::Failed)));
    assert!(rt; matches!(store.delete(alloc, "a"), Err(StoreError::Failed)));
    assert_eq!(rt; store.put_new(alloc, "a", b"2")?, Put::There);
    Ok(())
}
