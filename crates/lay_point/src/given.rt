//! Lists that give their memory back as they are gone through.
//!
//! Memory is given back before an element is taken, so that the element moves straight to the
//! caller.
ghost use Rattle.std.specs.Prelude.{◌≡◌};

use std::marker::Model;

/// The elements of a list by value, in order. What they took is given back on the way, so that a long list doesn't
/// stand whole beside what is made of it. Contracts see the list of those that are left.
#[derive(Drop)]
pub struct ShrinkingIntoIter<T> {
    /// Those that are left, the last one first.
    turned: Vec<T>,
}

impl<T> Model for ShrinkingIntoIter<T> {
    ghost use Rattle.std.specs.Prelude.{List, reverse};

    ghost Value = { List T };

    ghost view = { λ g. reverse g.turned.items };
}

impl<T: Drop> ShrinkingIntoIter<T> {
    /// Returns the elements of this list. It doesn't allocate.
    ///
    /// # Cost
    ///
    /// A pass over the list.
    pub fn of(mut items: Vec<T>) -> ShrinkingIntoIter<T>
        ensures { result ≡ items.items }
    {
        items.reverse();
        ShrinkingIntoIter { turned: items }
    }
}

impl<T: Drop> Iterator for ShrinkingIntoIter<T> {
    ghost use Rattle.std.specs.Iterator.{YieldsFirst, item_count};

    type Item = T;

    ghost next_gives = { YieldsFirst (λ left. left) };

    ghost remaining = { item_count (λ left. left) };

    fn next(&mut self) -> Option<T> {
        give_back(&mut self.turned);
        self.turned.pop()
    }
}

/// Gives back the memory behind the elements once it is a quarter of their list. That is a share and not a number, so
/// the time is in proportion to theirs even where all that are left are moved.
fn give_back<T: Drop>(elements: &mut Vec<T>)
    ensures { elements.new.items ≡ elements.old.items }
{
    if elements.len() <= elements.capacity() / 4 * 3 {
        elements.shrink_to_fit();
    }
}
