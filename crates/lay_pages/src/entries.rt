//! Entries that are lent, in order of their keys.
ghost use Rattle.std.specs.Prelude.{◌≡◌, ◌<◌, ◌++◌, [], length};
ghost use Rattle.std.specs.Cmp.Lexicographic.{pointwise};
ghost use Rattle.std.specs.List.Sorted.{IsStrictlySortedBy};
ghost use Rattle.std.specs.Map.{keys_of};
ghost use Rattle.lay_pages.specs.Shared.{
  AreBooks,
  AreSized,
  entries_in,
  items_of,
  joined,
  pages_in,
};
ghost use Rattle.lay_pages.specs.Written.{are_equal, from_key};

use crate::keys::{PageKey, PageValue};
use crate::page;
use crate::page::{Book, Page};
use crate::page_place::{book_of, page_of};
use std::marker::Model;

/// Lends entries in order of their keys. Contracts see the list of those that are left.
#[derive(Drop)]
pub struct Entries<'a, K: PageKey, V: PageValue> {
    entries: &'a [(K, V)],
    pages: &'a [Page<K, V>],
    books: &'a [Book<K, V>],
}

impl<'a, K: PageKey, V: PageValue> Model for Entries<'a, K, V> {
    ghost use Rattle.std.specs.Prelude.{List};
    ghost use Rattle.lay_pages.specs.Shared.{entries_in, items_of, left, pages_in};

    ghost Value = { List (K × V) };

    ghost view = { λ e. left e.entries.now (items_of e.pages.now) (pages_in e.books.now) };
}

impl<'a, K: PageKey, V: PageValue> Entries<'a, K, V> {
    /// Returns no entries.
    pub fn none() -> Entries<'a, K, V>
        ensures { result ≡ [] }
    {
        Entries {
            entries: &[],
            pages: &[],
            books: &[],
        }
    }

    /// Returns all entries of the books.
    pub(crate) fn all(books: &'a [Book<K, V>]) -> Entries<'a, K, V>
        ensures { result ≡ entries_in (pages_in books.now) }
    {
        Entries {
            entries: &[],
            pages: &[],
            books,
        }
    }

    /// Returns the entries of the books from a key on.
    pub(crate) fn from(books: &'a [Book<K, V>], key: K) -> Entries<'a, K, V>
        requires { AreBooks K.cmp (pages_in books.now) }
        ensures { result ≡ from_key K.cmp key (entries_in (pages_in books.now)) }
    {
        if books.is_empty() {
            return Entries::all(books);
        }
        let at = book_of(books, key);
        let (entries, pages) = from_in_book(&books[at], key);
        Entries {
            entries,
            pages,
            books: &books[at + 1..],
        }
    }
}

/// Returns the entries of a book from a key on: those of one page, and the pages behind it.
fn from_in_book<K: PageKey, V: PageValue>(book: &[Page<K, V>], key: K) -> (&[(K, V)], &[Page<K, V>])
    requires some { 0 < length book.now }
    requires sized { AreSized (items_of book.now) }
    requires sorted { IsStrictlySortedBy K.cmp (keys_of (joined (items_of book.now))) }
    ensures { result.0.now ++ joined (items_of result.1.now) ≡ from_key K.cmp key (joined (items_of book.now)) }
{
    let at = page_of(book, key);
    (page::from(&book[at], key), &book[at + 1..])
}

impl<'a, K: PageKey, V: PageValue> Iterator for Entries<'a, K, V> {
    ghost use Rattle.std.specs.Iterator.{YieldsFirstBy, item_count};

    type Item = (K, &'a V);

    ghost next_gives = { YieldsFirstBy (λ lent. (lent.0, lent.1.now)) (λ left. left) };

    ghost remaining = { item_count (λ left. left) };

    fn next(&mut self) -> Option<(K, &'a V)> {
        while self.entries.is_empty() {
            if let Some((page, pages)) = self.pages.split_first() {
                self.entries = page;
                self.pages = pages;
            } else {
                let (book, books) = self.books.split_first()?;
                self.pages = book;
                self.books = books;
            }
        }
        let ((key, value), entries) = self.entries.split_first()?;
        self.entries = entries;
        Some((*key, value))
    }
}

/// Returns whether others are the same entries.
pub(crate) fn are_same<K: PageKey, V: PageValue + PartialEq>(
    entries: Entries<'_, K, V>,
    mut others: Entries<'_, K, V>,
) -> bool
    ensures { result ≡ pointwise (are_equal K.eq V.eq) entries.entry others.entry }
{
    for (key, value) in entries {
        match others.next() {
            Some((other_key, other)) => {
                if key != other_key || value != other {
                    return false;
                }
            }
            None => return false,
        }
    }
    others.next().is_none()
}
