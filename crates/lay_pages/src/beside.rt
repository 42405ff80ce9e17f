//! The entry before a key.
ghost use Rattle.std.specs.Prelude.{◌≡◌, ◌<◌, [], length, slice_index_or};
ghost use Rattle.std.specs.List.{AllByRecursion};
ghost use Rattle.lay_pages.specs.Shared.{
  AreBooks,
  AreSized,
  entries_in,
  items_of,
  joined,
  pages_in,
};
ghost use Rattle.lay_pages.specs.Written.{last_entry, lent_entry, lower};
ghost use Rattle.lay_pages.specs.Places.{entries_before};

use crate::keys::{PageKey, PageValue};
use crate::page::{Book, Page, around};
use crate::place::{Place, entries_at, place_of};

/// Lends the entry before a key.
pub(crate) fn below<K: PageKey, V: PageValue>(books: &[Book<K, V>], key: K) -> Option<(K, &V)>
    requires { AreBooks K.cmp (pages_in books.now) }
    ensures { lent_entry result ≡ last_entry (lower K.cmp key (entries_in (pages_in books.now))) }
{
    if books.is_empty() {
        return None;
    }
    let place = place_of(books, key);
    let (before, _) = around(entries_at(books, place), key);
    if before.is_empty() {
        return last_before(books, place);
    }
    last_in_page(before)
}

/// Lends the last entry before a page.
fn last_before<K: PageKey, V: PageValue>(books: &[Book<K, V>], place: Place) -> Option<(K, &V)>
    requires book { place.book < length books.now }
    requires page { place.page < length (slice_index_or (pages_in books.now) place.book []) }
    requires books { AreBooks K.cmp (pages_in books.now) }
    ensures { lent_entry result ≡ last_entry (entries_before (pages_in books.now) place.book place.page) }
{
    if place.page == 0 {
        return last_in_books(&books[..place.book]);
    }
    let book: &[Page<K, V>] = &books[place.book];
    last_in_book(&book[..place.page])
}

/// Lends the last entry of books.
fn last_in_books<K: PageKey, V: PageValue>(books: &[Book<K, V>]) -> Option<(K, &V)>
    requires books { AreSized (pages_in books.now) }
    requires pages { AllByRecursion AreSized (pages_in books.now) }
    ensures { lent_entry result ≡ last_entry (entries_in (pages_in books.now)) }
{
    last_in_book(books.last()?)
}

/// Lends the last entry of pages.
fn last_in_book<K: PageKey, V: PageValue>(book: &[Page<K, V>]) -> Option<(K, &V)>
    requires { AreSized (items_of book.now) }
    ensures { lent_entry result ≡ last_entry (joined (items_of book.now)) }
{
    last_in_page(book.last()?)
}

/// Lends the last entry of a page.
fn last_in_page<K: PageKey, V: PageValue>(page: &[(K, V)]) -> Option<(K, &V)>
    ensures { lent_entry result ≡ last_entry page.now }
{
    let (key, value) = page.last()?;
    Some((*key, value))
}
