//! A page: entries in order of their keys.
ghost use Rattle.std.specs.Prelude.{◌≡◌, ◌++◌, ◌<◌, IfOk, OnOk, IfErr, length, option_copied};
ghost use Rattle.std.specs.FinMap.{find};
ghost use Rattle.std.specs.List.Sorted.{IsStrictlySortedBy};
ghost use Rattle.std.specs.Map.{keys_of};
ghost use Rattle.lay_pages.specs.Written.{
  IsFirstKey,
  IsFoundAt,
  IsGapAt,
  from_key,
  higher,
  lower,
  written_all,
  written_entries,
};

use crate::keys::{PageKey, PageValue};
use std::alloc::{AllocError, Global};
use std::sync::Arc;

/// Entries in order of their keys, shared.
pub type Page<K, V> = Arc<Vec<(K, V)>>;

/// Pages in order of their keys, shared.
pub type Book<K, V> = Arc<Vec<Page<K, V>>>;

/// Returns the key of the first entry.
pub fn first_key<K: PageKey, V>(page: &[(K, V)]) -> K
    requires { 0 < length page.now }
    ensures { IsFirstKey result page.now }
{
    page[0].0
}

/// Returns the value under the key.
pub fn find<K: PageKey, V>(page: &[(K, V)], key: K) -> Option<&V>
    requires { IsStrictlySortedBy K.cmp (keys_of page.now) }
    ensures { option_copied result ≡ find K.cmp key page.now }
{
    match search(page, key) {
        Ok(at) => Some(&page[at].1),
        Err(_) => None,
    }
}

/// Returns the index of the key, or that which it would have.
fn search<K: PageKey, V>(page: &[(K, V)], key: K) -> Result<usize, usize>
    requires { IsStrictlySortedBy K.cmp (keys_of page.now) }
    ensures found { IfOk result (IsFoundAt K.cmp page.now key) }
    ensures absent { IfErr result (IsGapAt K.cmp page.now key) }
{
    page.binary_search_by_key(&key, |entry| entry.0)
}

/// Returns the entries before the key, and those after it. They are in order of their keys.
///
/// # Cost
///
/// Comparisons in proportion to the logarithm of their number.
pub(crate) fn around<K: PageKey, V>(page: &[(K, V)], key: K) -> (&[(K, V)], &[(K, V)])
    requires { IsStrictlySortedBy K.cmp (keys_of page.now) }
    ensures before { result.0.now ≡ lower K.cmp key page.now }
    ensures after { result.1.now ≡ higher K.cmp key page.now }
{
    match search(page, key) {
        Ok(at) => (&page[..at], &page[at + 1..]),
        Err(at) => (&page[..at], &page[at..]),
    }
}

/// Returns the entries from the key on.
pub fn from<K: PageKey, V>(page: &[(K, V)], key: K) -> &[(K, V)]
    requires { IsStrictlySortedBy K.cmp (keys_of page.now) }
    ensures { result.now ≡ from_key K.cmp key page.now }
{
    match search(page, key) {
        Ok(at) => &page[at..],
        Err(at) => &page[at..],
    }
}

/// Returns the page after these writes, which are in order of their keys.
///
/// # Errors
///
/// `AllocError`, if an allocation fails.
///
/// # Cost
///
/// A pass over the entries, and a search by halving for each write.
pub fn with_all<K: PageKey, V: PageValue>(
    alloc: Global,
    page: &[(K, V)],
    writes: &[(K, Option<V>)],
) -> Result<Vec<(K, V)>, AllocError>
    requires sorted { IsStrictlySortedBy K.cmp (keys_of page.now) }
    requires rising { IsStrictlySortedBy K.cmp (keys_of writes.now) }
    ensures { IfOk result (λ new. new.items ≡ written_all K.cmp page.now writes.now) }
{
    let mut new = Vec::with_capacity(alloc, page.len().saturating_add(writes.len()))?;
    let mut rest = page;
    for (key, value) in writes {
        let (before, after) = around(rest, *key);
        append(&mut new, before)?;
        push_written(&mut new, *key, value)?;
        rest = after;
    }
    append(&mut new, rest)?;
    Ok(new)
}

/// Appends what a write leaves under its key.
fn push_written<K: PageKey, V: PageValue>(
    new: &mut Vec<(K, V)>,
    key: K,
    value: &Option<V>,
) -> Result<(), AllocError>
    ensures { OnOk result (new.new.items ≡ new.old.items ++ written_entries key value.now) }
{
    if let Some(value) = value {
        new.push((key, value.clone()?))?;
    }
    Ok(())
}

/// Appends copies of the entries.
fn append<K: PageKey, V: PageValue>(
    new: &mut Vec<(K, V)>,
    entries: &[(K, V)],
) -> Result<(), AllocError>
    ensures { OnOk result (new.new.items ≡ new.old.items ++ entries.now) }
{
    for (key, value) in entries {
        new.push((*key, value.clone()?))?;
    }
    Ok(())
}
