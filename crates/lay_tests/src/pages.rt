//! Tests of what no clause says: that calls succeed, where pages are cut, and that a map keeps what it had.

use lay_pages::*;
use std::alloc::Global;
use std::collections::BTreeMap;
use std::test::*;

/// Returns the map with the keys from `first` up to `end`, each written after the one before it.
fn grown(
    alloc: Global,
    mut map: Pages<u32, u32>,
    first: u32,
    end: u32,
) -> Result<Pages<u32, u32>, Fail> {
    for key in first..end {
        map = map.with(alloc, key, Some(key))?;
    }
    Ok(map)
}

// Could catch a page that is cut before it is full, or in the middle where it grows at its end, and empty
// pages that are kept.
#[test]
fn a_page_that_grows_is_cut_when_it_is_full(rt: HostRuntime) -> Result<(), Fail> {
    let alloc = rt.alloc();
    let full = grown(alloc, Pages::new(alloc), 0, 64)?;
    assert!(rt; full.len() == 64 && full.pages() == 1);
    let more = full.with(alloc, 64, Some(64))?;
    assert!(rt; more.len() == 65 && more.pages() == 2);
    let less = more.with(alloc, 0, None)?;
    assert!(rt; less.len() == 64 && less.pages() == 2);
    let mut none = less.share(alloc)?;
    for key in 1..65 {
        none = none.with(alloc, key, None)?;
    }
    assert!(rt; none.len() == 0 && none.pages() == 0);
    let most = grown(alloc, more.share(alloc)?, 65, 129)?;
    assert!(rt; most.len() == 129 && most.pages() == 3);
    assert!(rt; full.len() == 64 && full.get(0) == Some(&0) && full.get(64).is_none());
    assert!(rt; more.get(0) == Some(&0) && less.get(0).is_none() && less.get(64) == Some(&64));
    Ok(())
}

// Could catch a cut by which keys that come downward leave a page for each.
#[test]
fn keys_that_come_downward_fill_half_of_each_page(rt: HostRuntime) -> Result<(), Fail> {
    let alloc = rt.alloc();
    let mut writes = Vec::new(alloc);
    for key in 0..4000 {
        writes.push((4000 - key, Some(key)))?;
    }
    let none: Pages<u32, u32> = Pages::new(alloc);
    let map = none.with_all(alloc, &writes)?;
    assert_eq!(rt; map.len(), 4000);
    assert!(rt; map.pages() < 130);
    Ok(())
}

/// In which order keys are written.
#[derive(Clone, Copy)]
enum Order {
    Upward,
    Downward,
    Scattered,
}

/// Returns the key that is written at a step.
fn key_at(order: Order, step: u32) -> u32 {
    match order {
        Order::Upward => step,
        Order::Downward => u32::MAX - step,
        Order::Scattered => step.wrapping_mul(2_654_435_761) % 50_000,
    }
}

/// Returns whether the map has the entries of a plain one.
fn is_same(map: &Pages<u32, u32>, plain: &BTreeMap<u32, u32>) -> bool {
    for (key, value) in plain {
        if map.get(*key) != Some(value) {
            return false;
        }
    }
    map.len() == plain.len()
}

/// Writes beside a plain map, and returns whether each thousandth map has at the end what it had.
fn are_kept(alloc: Global, order: Order) -> Result<bool, Fail> {
    let mut map: Pages<u32, u32> = Pages::new(alloc);
    let mut plain = BTreeMap::new(alloc);
    let mut taken = Vec::new(alloc);
    for step in 0..33_334 {
        let key = key_at(order, if step % 3 == 2 { step / 2 } else { step });
        if step % 3 == 2 {
            map = map.with(alloc, key, None)?;
            plain.remove(&key);
        } else {
            map = map.with(alloc, key, Some(step))?;
            plain.insert(key, step)?;
        }
        if step % 1000 == 0 {
            taken.push((map.share(alloc)?, plain.clone()?))?;
        }
    }
    let mut kept = is_same(&map, &plain);
    for (map, plain) in &taken {
        kept = kept && is_same(map, plain);
    }
    Ok(kept)
}

// Could catch pages that are written though older maps share them, in the compilers or the library.
#[test]
fn a_hundred_thousand_writes_leave_what_a_plain_map_has(rt: HostRuntime) -> Result<(), Fail> {
    let alloc = rt.alloc();
    for order in [Order::Upward, Order::Downward, Order::Scattered] {
        assert!(rt; are_kept(alloc, order)?);
    }
    Ok(())
}

// Could catch entries that are lent twice or passed over where a page or a book ends, and a start behind the key.
#[test]
fn entries_are_lent_in_order_from_a_key_on(rt: HostRuntime) -> Result<(), Fail> {
    let alloc = rt.alloc();
    let map = grown(alloc, Pages::new(alloc), 0, 5000)?;
    assert!(rt; map.iter().map(|(key, _)| key).eq(0..5000));
    assert!(rt; map.from(2500).map(|(key, _)| key).eq(2500..5000));
    let less = map.with(alloc, 2500, None)?;
    assert!(rt; less.from(2500).map(|(key, _)| key).eq(2501..5000));
    assert!(rt; less.from(5000).next().is_none() && map.from(0).next() == Some((0, &0)));
    assert!(rt; !less.is_same(&map) && less.with(alloc, 2500, Some(2500))?.is_same(&map));
    Ok(())
}
