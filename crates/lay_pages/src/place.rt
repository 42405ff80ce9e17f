//! The page into which a key falls.
ghost use Rattle.std.specs.Prelude.{◌≡◌, ◌<◌, [], length, slice_index_or};
ghost use Rattle.lay_pages.specs.Shared.{AreBooks, pages_in};
ghost use Rattle.lay_pages.specs.Places.{IsPageOf, page_in};

use crate::keys::{PageKey, PageValue};
use crate::page::{Book, Page};
use crate::page_place::{book_of, page_of};

/// A page of books: the index of its book, and its own in that book.
#[derive(Clone, Copy, PartialEq, Eq)]
pub(crate) struct Place {
    pub(crate) book: usize,
    pub(crate) page: usize,
}

/// Returns the page into which a key falls.
pub(crate) fn place_of<K: PageKey, V: PageValue>(books: &[Book<K, V>], key: K) -> Place
    requires some { 0 < length books.now }
    requires books { AreBooks K.cmp (pages_in books.now) }
    ensures { IsPageOf K.cmp key (pages_in books.now) result.book result.page }
{
    let book = book_of(books, key);
    let page = page_of(&books[book], key);
    Place { book, page }
}

/// Lends the entries of a page.
pub(crate) fn entries_at<K: PageKey, V: PageValue>(books: &[Book<K, V>], place: Place) -> &[(K, V)]
    requires book { place.book < length books.now }
    requires page { place.page < length (slice_index_or (pages_in books.now) place.book []) }
    ensures { result.now ≡ page_in (pages_in books.now) place.book place.page }
{
    let pages: &[Page<K, V>] = &books[place.book];
    &pages[place.page]
}
