//! Lists that are shared by all who hold them.
ghost use Rattle.std.specs.Prelude.{◌≡◌, IfOk};

use lay_point::NoMemory;
use std::alloc::Global;
use std::marker::Model;
use std::sync::Arc;

/// A list that is shared by all who hold it. Contracts see the list.
#[derive(Drop)]
pub(crate) struct Shared<T> {
    items: Arc<Vec<T>>,
}

impl<T> Model for Shared<T> {
    ghost use Rattle.std.specs.Arc.{arc_value};
    ghost use Rattle.std.specs.Prelude.{List};

    ghost Value = { List T };

    ghost view = { λ s. (arc_value s.items).items };
}

impl<T: Drop> Shared<T> {
    /// Returns the list, to be shared.
    pub(crate) fn of(alloc: Global, items: Vec<T>) -> Result<Shared<T>, NoMemory>
        ensures { IfOk result (λ list. list ≡ items.items) }
    {
        let items = Arc::new(alloc, items)?;
        Ok(Shared { items })
    }

    /// Returns the same list once more.
    pub(crate) fn share(&self) -> Result<Shared<T>, NoMemory>
        ensures { IfOk result (λ list. list ≡ self.now) }
    {
        let items = Arc::try_clone(&self.items)?;
        Ok(Shared { items })
    }

    /// Lends the elements, in order.
    pub(crate) fn as_slice(&self) -> &[T]
        ensures { result.now ≡ self.now }
    {
        self.items.as_slice()
    }
}
