//! The store and its versions.

use rf_store::{Key, Store, Value};
use std::alloc::AllocError;
use std::process::Abort;

fn key(n: u64) -> Key {
    [n, 0, 0, 0, 0, 0]
}

fn value(n: u64) -> Value {
    [n, 1, 2, 3, 4, 5, 6]
}

// Two versions, of one key with two values, and then another key.
fn keep_two(store: &mut Store) -> Result<(), AllocError> {
    store.put(key(5), value(1))?;
    store.commit()?;
    store.put(key(5), value(2))?;
    store.commit()?;
    store.put(key(7), value(3))?;
    Ok(())
}

fn expect_two(rt: &impl Abort, store: &mut Store) {
    assert_eq!(rt; store.get(&key(7)), Some(value(3)));
    assert_eq!(rt; store.kept(), 2);
    store.restore(0);
    assert_eq!(rt; store.get(&key(5)), Some(value(1)));
    store.restore(1);
    assert_eq!(rt; store.after(&key(5)), Some((key(5), value(2))));
    assert_eq!(rt; store.after(&key(6)), None);
    store.prune(0);
    assert_eq!(rt; store.kept(), 1);
    assert!(rt; store.rows() > 0);
}

#[test]
fn goes_back_to_kept_versions(rt: HostRuntime) {
    let mut store = Store::new(rt.alloc());
    assert!(rt; keep_two(&mut store).is_ok());
    expect_two(&rt, &mut store);
}

// The keys of many entries, in another order than theirs, no two the same.
fn scattered(i: u64) -> Key {
    key(i.wrapping_mul(389) % 1009)
}

// Puts a thousand entries, and keeps a version after each hundred.
fn fill(store: &mut Store) -> Result<(), AllocError> {
    for i in 0..1000 {
        store.put(scattered(i), value(i))?;
        if i % 100 == 99 {
            store.commit()?;
        }
    }
    Ok(())
}

// Whether there are those entries that were put first, and no others.
fn has_first(store: &Store, first: u64) -> bool {
    (0..1000).all(|i| store.get(&scattered(i)) == (i < first).then_some(value(i)))
}

// Each of the first versions has the entries that were put before it.
fn expect_versions(rt: &impl Abort, store: &mut Store, versions: u64) {
    for version in 0..versions {
        assert!(rt; version < store.kept());
        store.restore(version);
        let first = version.saturating_add(1).saturating_mul(100);
        assert!(rt; has_first(store, first), "version {version}");
    }
}

#[test]
fn versions_stay_as_they_were_kept(rt: HostRuntime) {
    let mut store = Store::new(rt.alloc());
    assert!(rt; fill(&mut store).is_ok());
    expect_versions(&rt, &mut store, 10);
    assert_eq!(rt; store.kept(), 10);
    store.prune(4);
    assert!(rt; fill(&mut store).is_ok());
    expect_versions(&rt, &mut store, 5);
}
