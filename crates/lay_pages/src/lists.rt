//! Lists of up to 64, filled one after another.
ghost use Rattle.std.specs.Prelude.{◌≡◌, ◌<◌, ◌++◌, [], ◌∷◌, IfOk, OnOk, length};
ghost use Rattle.lay_pages.specs.Shared.{AreFilled, AreSized, filled, items_of, joined};

use crate::share::push_list;
use std::alloc::{AllocError, Global};
use std::mem;
use std::sync::Arc;

/// Lists of 1 to 64 elements, shared, and the list that grows.
#[derive(Drop)]
pub struct Lists<T: Drop> {
    lists: Vec<Arc<Vec<T>>>,
    last: Vec<T>,
}

impl<T: Drop> Lists<T> {
    /// Returns no elements.
    pub fn new(alloc: Global) -> Lists<T>
        ensures none { filled (items_of result.lists.items) result.last.items ≡ [] }
        ensures sizes { AreFilled (items_of result.lists.items) result.last.items }
    {
        Lists {
            lists: Vec::new(alloc),
            last: Vec::new(alloc),
        }
    }

    /// Puts an element after them. Where that runs out of memory, elements may be lost.
    ///
    /// # Errors
    ///
    /// `AllocError`, if an allocation fails.
    pub fn push(&mut self, alloc: Global, element: T) -> Result<(), AllocError>
        requires { AreFilled (items_of self.old.lists.items) self.old.last.items }
        ensures elements { OnOk result (filled (items_of self.new.lists.items) self.new.last.items
            ≡ filled (items_of self.old.lists.items) self.old.last.items ++ (element ∷ [])) }
        ensures sizes { OnOk result (AreFilled (items_of self.new.lists.items) self.new.last.items) }
    {
        self.make_room(alloc)?;
        self.last.push(element)?;
        Ok(())
    }

    /// Makes room for one more element: a list of 64 is ended, and another begun.
    fn make_room(&mut self, alloc: Global) -> Result<(), AllocError>
        requires { AreFilled (items_of self.old.lists.items) self.old.last.items }
        ensures elements { OnOk result (filled (items_of self.new.lists.items) self.new.last.items
            ≡ filled (items_of self.old.lists.items) self.old.last.items) }
        ensures sizes { OnOk result (AreFilled (items_of self.new.lists.items) self.new.last.items) }
        ensures room { OnOk result (length self.new.last.items < 64) }
    {
        if self.last.len() < 64 {
            return Ok(());
        }
        let full = mem::replace(&mut self.last, Vec::with_capacity(alloc, 64)?);
        push_list(alloc, &mut self.lists, full)?;
        Ok(())
    }

    /// Returns the lists.
    ///
    /// # Errors
    ///
    /// `AllocError`, if an allocation fails.
    pub fn end(self, alloc: Global) -> Result<Vec<Arc<Vec<T>>>, AllocError>
        requires { AreFilled (items_of self.lists.items) self.last.items }
        ensures elements { IfOk result (λ new. joined (items_of new.items)
            ≡ filled (items_of self.lists.items) self.last.items) }
        ensures sizes { IfOk result (λ new. AreSized (items_of new.items)) }
    {
        let Lists { mut lists, last } = self;
        if last.is_empty() {
            return Ok(lists);
        }
        push_list(alloc, &mut lists, last)?;
        Ok(lists)
    }
}
