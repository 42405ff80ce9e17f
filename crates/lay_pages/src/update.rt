//! What writes make anew: one page of one book, which may be cut in two.
ghost use Rattle.std.specs.Prelude.{◌≡◌, ◌<◌, ◌≤◌, ◌+◌, [], IfOk, length, slice_index_or, take};
ghost use Rattle.std.specs.List.Sorted.{IsStrictlySortedBy};
ghost use Rattle.std.specs.Map.{keys_of};
ghost use Rattle.lay_pages.specs.Shared.{AreBooks, entries_in, pages_in};
ghost use Rattle.lay_pages.specs.Places.{AreOfPage, with_page};

use crate::keys::{PageKey, PageValue};
use crate::page::{Book, Page};
use crate::place::{Place, place_of};
use crate::share::{push_parts, spliced};
use std::alloc::{AllocError, Global};
use std::cmp::Ordering;

/// Returns the page into which the first of the writes falls, and how many of the first writes fall into it: up to
/// 64.
pub(crate) fn group_of<K: PageKey, V: PageValue>(
    books: &[Book<K, V>],
    writes: &[(K, Option<V>)],
) -> (Place, usize)
    requires books { AreBooks K.cmp (pages_in books.now) }
    requires some { 0 < length books.now }
    requires writes { 0 < length writes.now }
    ensures some { 0 < result.1 }
    ensures few { result.1 ≤ 64 }
    ensures within { result.1 ≤ length writes.now }
    ensures book { result.0.book < length books.now }
    ensures page { result.0.page < length (slice_index_or (pages_in books.now) result.0.book []) }
    ensures falls { AreOfPage K.cmp (take result.1 writes.now) (pages_in books.now) result.0.book result.0.page }
{
    let place = place_of(books, writes[0].0);
    let mut count = 1;
    while count < 64 && count < writes.len() && place_of(books, writes[count].0) == place {
        count += 1;
    }
    (place, count)
}

/// Returns the books with these entries in place of those of a page. All other books and pages are shared.
pub(crate) fn books_with<K: PageKey, V: PageValue>(
    alloc: Global,
    books: &[Book<K, V>],
    place: Place,
    entries: Vec<(K, V)>,
    grows: bool,
) -> Result<Vec<Book<K, V>>, AllocError>
    requires books { AreBooks K.cmp (pages_in books.now) }
    requires book { place.book < length books.now }
    requires page { place.page < length (slice_index_or (pages_in books.now) place.book []) }
    requires few { length entries.items ≤ 128 }
    requires sorted { IsStrictlySortedBy K.cmp
        (keys_of (with_page (pages_in books.now) place.book place.page entries.items)) }
    ensures entries { IfOk result (λ new. entries_in (pages_in new.items)
        ≡ with_page (pages_in books.now) place.book place.page entries.items) }
    ensures books { IfOk result (λ new. AreBooks K.cmp (pages_in new.items)) }
{
    let pages: &[Page<K, V>] = &books[place.book];
    let is_last = place.page + 1 == pages.len();
    let new = spliced(alloc, pages, place.page, entries, grows)?;
    let books = spliced(alloc, books, place.book, new, is_last)?;
    Ok(books)
}

/// Returns whether the key is above the last of the page.
pub(crate) fn is_after<K: PageKey, V: PageValue>(page: &[(K, V)], key: K) -> bool {
    match page.last() {
        Some((last, _)) => last.cmp(&key) == Ordering::Less,
        None => true,
    }
}

/// Returns the books of these entries.
pub(crate) fn first_books<K: PageKey, V: PageValue>(
    alloc: Global,
    entries: Vec<(K, V)>,
) -> Result<Vec<Book<K, V>>, AllocError>
    requires few { length entries.items ≤ 128 }
    requires sorted { IsStrictlySortedBy K.cmp (keys_of entries.items) }
    ensures entries { IfOk result (λ new. entries_in (pages_in new.items) ≡ entries.items) }
    ensures books { IfOk result (λ new. AreBooks K.cmp (pages_in new.items)) }
{
    let mut pages = Vec::new(alloc);
    push_parts(alloc, &mut pages, entries, true)?;
    let mut books = Vec::new(alloc);
    push_parts(alloc, &mut books, pages, true)?;
    Ok(books)
}

/// Returns the number of entries where so many new ones take the place of so many old ones. Where a `usize` hasn't the
/// number, that is out of memory.
pub(crate) fn len_with(len: usize, old: usize, new: usize) -> Result<usize, AllocError>
    requires { old ≤ len }
    ensures { IfOk result (λ count. count + old ≡ len + new) }
{
    (len - old).checked_add(new).ok_or(AllocError)
}
