//! Lists that mostly have one element.
ghost use Rattle.std.specs.Prelude.{◌≡◌, [], ◌∷◌};

use std::marker::Model;

/// A list that doesn't grow. A sole element stands in place, and takes no allocation. Contracts see the list.
#[derive(Debug, Drop)]
pub struct OneOrMany<T> {
    kept: Storage<T>,
}

/// How the elements are kept.
#[derive(Debug, Drop)]
enum Storage<T> {
    InPlace([T; 1]),
    Listed(Vec<T>),
}

impl<T> Model for OneOrMany<T> {
    ghost use Rattle.std.specs.Prelude.{List};
    ghost use Rattle.std.specs.Coded.{coded_list};
    ghost use Rattle.txn_marks.specs.OneOrMany.{kept_list};

    ghost Value = { List T };

    ghost coded = { coded_list T.code };

    ghost view = { λ f. kept_list f.kept };
}

impl<T: Drop> OneOrMany<T> {
    /// Returns the list of this element alone.
    pub fn one(item: T) -> OneOrMany<T>
        ensures { result ≡ item ∷ [] }
    {
        let kept = Storage::InPlace([item]);
        OneOrMany { kept }
    }

    /// Returns the list of these elements. It doesn't allocate.
    pub fn of(mut items: Vec<T>) -> OneOrMany<T>
        ensures { result ≡ items.items }
    {
        if items.len() == 1
            && let Some(item) = items.pop()
        {
            return OneOrMany::one(item);
        }
        let kept = Storage::Listed(items);
        OneOrMany { kept }
    }

    /// Lends the elements, in order.
    pub fn as_slice(&self) -> &[T]
        ensures { result.now ≡ self.now }
    {
        match &self.kept {
            Storage::InPlace(sole) => sole.as_slice(),
            Storage::Listed(items) => items.as_slice(),
        }
    }
}
