//! The catalogue of ratified commits.

use commit_catalog::{Catalog, Limits, Ratified, Ratify};
use std::alloc::AllocError;
use std::test::Fail;

const LIMITS: Limits = Limits {
    versions: 3,
    unpublished: 2,
    attempts: 1,
    bytes: 1024,
};

fn is_send<T: Send>(_value: &T) {}

#[test]
fn ratifies_up_to_the_limits(rt: HostRuntime) -> Result<(), Fail> {
    let mut catalog = Catalog::new(rt.alloc(), LIMITS);
    is_send(&catalog);
    catalog.reserve()?;
    assert_eq!(rt; catalog.ratify(0, 7, -5), Ratify::Done);
    assert_eq!(rt; catalog.limits(), LIMITS);
    assert_eq!(rt; catalog.count(), 1);
    assert_eq!(rt; catalog.reported(), 0);
    let first = Ratified {
        version: 0,
        id: 7,
        time: -5,
    };
    assert_eq!(rt; catalog.find(0), Some(first));
    assert_eq!(rt; catalog.find(1), None);
    assert_eq!(rt; catalog.report(1), 1);
    let told = catalog.commits()?;
    assert_eq!(rt; told.staged.len(), 0);
    Ok(())
}

/// A version is proposed, where no version below it is missing.
fn proposed(catalog: &mut Catalog, version: u64) -> Result<Option<Ratify>, AllocError> {
    catalog.reserve()?;
    if version > catalog.count() {
        return Ok(None);
    }
    Ok(Some(catalog.ratify(version, 1, 0)))
}

#[test]
fn refuses_at_the_limits(rt: HostRuntime) -> Result<(), Fail> {
    let mut catalog = Catalog::new(rt.alloc(), LIMITS);
    let backlog = Ratify::Backlog {
        latest: 1,
        reported: 0,
    };
    for (version, answer) in [
        (0, Ratify::Done),
        (0, Ratify::Lost { latest: 0 }),
        (1, Ratify::Done),
        (2, backlog),
    ] {
        assert_eq!(rt; proposed(&mut catalog, version)?, Some(answer));
    }
    assert_eq!(rt; catalog.commits()?.staged.len(), 2);
    let count = catalog.count();
    assert_eq!(rt; catalog.report(count), 2);
    for (version, answer) in [(2, Ratify::Done), (3, Ratify::Full { latest: 2 })] {
        assert_eq!(rt; proposed(&mut catalog, version)?, Some(answer));
    }
    let told = catalog.commits()?;
    assert_eq!(rt; (told.count, told.reported), (3, 2));
    assert_eq!(rt; told.staged.len(), 1);
    assert_eq!(rt; told.staged[0].version, 2);
    Ok(())
}
