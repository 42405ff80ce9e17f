//! What a transaction touched.
ghost use Rattle.std.specs.Prelude.{◌≡◌, OnErr, OnOk};
ghost use Rattle.std.specs.FinSet as set;
ghost use Rattle.txn_commands.specs.Elements.{untouched};

use lay_point::NoMemory;
use std::alloc::Global;
use std::collections::BTreeSet;
use std::marker::Model;
use txn_commands::Element;

/// The parts of a layout that a transaction read or wrote. Contracts see the finite set of them.
#[derive(Debug, Drop)]
pub struct Footprint {
    pub(crate) elements: BTreeSet<Element>,
}

impl Model for Footprint {
    ghost use Rattle.std.specs.FinSet as set;
    ghost use Rattle.txn_commands.specs.Elements.{Touched, coded_touched};

    ghost Value = { Touched };

    ghost coded = { coded_touched };

    ghost view = { λ f. set.from_list f.elements.keys };
}

impl Footprint {
    /// The footprint of no command.
    pub fn new(alloc: Global) -> Footprint
        ensures { result ≡ untouched }
    {
        Footprint {
            elements: BTreeSet::new(alloc),
        }
    }

    /// Adds an element.
    ///
    /// # Errors
    ///
    /// `NoMemory`, if an allocation fails; nothing is changed then.
    ///
    /// # Cost
    ///
    /// Comparisons in proportion to the logarithm of the number of elements.
    pub fn insert(&mut self, element: Element) -> Result<(), NoMemory>
        ensures ok { OnOk result (self.new ≡ set.insert self.old element) }
        ensures err { OnErr result (self.new ≡ self.old) }
    {
        self.elements.insert(element)?;
        Ok(())
    }

    /// Removes an element, where it is there.
    ///
    /// # Cost
    ///
    /// As that of `insert`.
    pub fn remove(&mut self, element: Element)
        ensures { self.new ≡ set.remove self.old element }
    {
        self.elements.remove(&element);
    }

    /// Lends the elements, in order.
    pub fn elements(&self) -> &BTreeSet<Element>
        ensures { set.from_list result.now.keys ≡ self.now }
    {
        &self.elements
    }

    /// Returns whether the element is in it.
    ///
    /// # Cost
    ///
    /// As that of `insert`.
    pub fn contains(&self, element: Element) -> bool
        ensures { result ≡ set.contains self.now element }
    {
        self.elements.contains(&element)
    }
}
