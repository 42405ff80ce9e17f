//! The page and the book into which a write falls, found by halving.
ghost use Rattle.std.specs.Prelude.{◌<◌, length, map};
ghost use Rattle.std.specs.List.{HoldsAt};
ghost use Rattle.std.specs.List.Sorted.{IsStrictlySortedBy};
ghost use Rattle.std.specs.Map.{keys_of};
ghost use Rattle.lay_pages.specs.Shared.{AreBooks, AreSized, items_of, joined, pages_in};
ghost use Rattle.lay_pages.specs.Written.{IsFirstKey, IsPlace};

use crate::keys::{PageKey, PageValue};
use crate::page::{Book, Page, first_key};
use std::cmp::Ordering;

/// Returns the index of the book into which a write falls.
pub(crate) fn book_of<K: PageKey, V: PageValue>(books: &[Book<K, V>], key: K) -> usize
    requires some { 0 < length books.now }
    requires books { AreBooks K.cmp (pages_in books.now) }
    ensures { IsPlace K.cmp key (map joined (pages_in books.now)) result }
{
    let mut low = 0;
    let mut high = books.len();
    while high - low > 1 {
        let middle = low + (high - low) / 2;
        match first_in_book(books, middle).cmp(&key) {
            Ordering::Greater => high = middle,
            _ => low = middle,
        }
    }
    low
}

/// Returns the index of the page into which a write falls.
pub(crate) fn page_of<K: PageKey, V: PageValue>(pages: &[Page<K, V>], key: K) -> usize
    requires some { 0 < length pages.now }
    requires sized { AreSized (items_of pages.now) }
    requires sorted { IsStrictlySortedBy K.cmp (keys_of (joined (items_of pages.now))) }
    ensures { IsPlace K.cmp key (items_of pages.now) result }
{
    let mut low = 0;
    let mut high = pages.len();
    while high - low > 1 {
        let middle = low + (high - low) / 2;
        match first_in_page(pages, middle).cmp(&key) {
            Ordering::Greater => high = middle,
            _ => low = middle,
        }
    }
    low
}

/// Returns the first key of a book.
fn first_in_book<K: PageKey, V: PageValue>(books: &[Book<K, V>], at: usize) -> K
    requires in_range { at < length books.now }
    requires books { AreBooks K.cmp (pages_in books.now) }
    ensures { HoldsAt (IsFirstKey result) (map joined (pages_in books.now)) at }
{
    first_in_page(&books[at], 0)
}

/// Returns the first key of a page.
fn first_in_page<K: PageKey, V: PageValue>(pages: &[Page<K, V>], at: usize) -> K
    requires in_range { at < length pages.now }
    requires sized { AreSized (items_of pages.now) }
    ensures { HoldsAt (IsFirstKey result) (items_of pages.now) at }
{
    first_key(&pages[at])
}
