//! Elements in lists.
ghost use Rattle.std.specs.Prelude.{◌≡◌, IfOk};
ghost use Rattle.std.specs.FinSet as set;
ghost use Rattle.txn_marks.specs.Homes.{AreMetBy};

use crate::footprint::Footprint;
use crate::one_or_many::OneOrMany;
use crate::records::Records;
use lay_point::NoMemory;
use std::alloc::Global;
use std::marker::Model;
use txn_commands::Element;

/// Elements in a list that doesn't grow: those of a footprint, or those that records meet. Most transactions touch a few,
/// for which a node of a tree is ten times as large. A sole one stands in place. Contracts see the finite set of them.
#[derive(Debug, Drop)]
pub struct Elements {
    list: OneOrMany<Element>,
}

impl Model for Elements {
    ghost use Rattle.std.specs.FinSet as set;
    ghost use Rattle.txn_commands.specs.Elements.{Touched, coded_touched};

    ghost Value = { Touched };

    ghost coded = { coded_touched };

    ghost view = { λ e. set.from_list e.list };
}

impl Elements {
    /// Returns those of the footprint. The list has no room for others, and a sole one takes no allocation.
    ///
    /// # Errors
    ///
    /// `NoMemory`, if an allocation fails.
    ///
    /// # Cost
    ///
    /// A pass over the elements.
    pub fn of(alloc: Global, footprint: &Footprint) -> Result<Elements, NoMemory>
        ensures { IfOk result (λ elements. elements ≡ footprint.now) }
    {
        let tree = footprint.elements();
        if tree.len() == 1
            && let Some(element) = tree.first()
        {
            let list = OneOrMany::one(*element);
            return Ok(Elements { list });
        }
        let mut list = Vec::with_capacity(alloc, tree.len())?;
        for element in tree {
            list.push(*element)?;
        }
        let list = OneOrMany::of(list);
        Ok(Elements { list })
    }

    /// Returns those that some record meets.
    ///
    /// # Errors
    ///
    /// `NoMemory`, if an allocation fails.
    ///
    /// # Cost
    ///
    /// That of `Records::elements`, and that of bringing them in order: by the logarithm of their number for each.
    pub fn met_by(alloc: Global, records: &Records) -> Result<Elements, NoMemory>
        ensures { IfOk result (λ met. AreMetBy records.now met) }
    {
        let mut list = records.elements(alloc)?;
        list.sort_unstable();
        list.dedup();
        let list = OneOrMany::of(list);
        Ok(Elements { list })
    }

    /// Lends the elements, in order.
    pub fn as_slice(&self) -> &[Element]
        ensures { set.from_list result.now ≡ self.now }
    {
        self.list.as_slice()
    }
}
