//! Items and their rings.
//!
//! Most shapes are boxes. The ring of one is kept in the item, so a copy takes no memory and no
//! count.
ghost use Rattle.std.specs.Prelude.{◌≡◌, ◌∷◌, [], IfOk, Ok};
ghost use Rattle.lay_point.specs.Memory.{IsAnswer};
ghost use Rattle.lay_layouts.specs.Items.{cell_of};

use lay_cells::CellId;
use lay_point::{LayerName, NoMemory, Ring, Turn};
use std::alloc::{AllocError, Global};
use std::marker::Model;
use std::sync::Arc;

/// The rings of a shape. Contracts see the list of them.
#[derive(Debug, Drop)]
pub struct Rings {
    kept: RingsStorage,
}

/// How rings are kept. A sole ring of four points stands in place, which takes less than a share of
/// it would; all others are shared by all who hold them.
#[derive(Debug, Drop)]
enum RingsStorage {
    InPlace(Ring),
    One(Arc<Ring>),
    Several(Arc<Vec<Ring>>),
}

impl Model for Rings {
    ghost use Rattle.std.specs.Prelude.{List};
    ghost use Rattle.lay_point.specs.declared.point.Point.{Point};
    ghost use Rattle.lay_layouts.specs.RingsStorage.{kept_rings};

    ghost Value = { List (List Point) };

    ghost view = { λ r. kept_rings r.kept };
}

impl Rings {
    /// Returns the rings, to be shared but for a sole one of four points.
    ///
    /// # Errors
    ///
    /// `NoMemory`, if an allocation fails.
    pub fn new(alloc: Global, mut rings: Vec<Ring>) -> Result<Rings, NoMemory>
        ensures { IsAnswer (record {}) result (Ok rings.items) }
    {
        if rings.len() == 1
            && let Some(ring) = rings.pop()
        {
            return Rings::one(alloc, ring);
        }
        let kept = RingsStorage::Several(Arc::new(alloc, rings)?);
        Ok(Rings { kept })
    }

    /// Returns the ring, to be shared but where it has four points. It needs no list.
    ///
    /// # Errors
    ///
    /// `NoMemory`, if an allocation fails.
    pub fn one(alloc: Global, ring: Ring) -> Result<Rings, NoMemory>
        ensures { IsAnswer (record {}) result (Ok (ring ∷ [])) }
    {
        let kept = if ring.points().len() == 4 {
            RingsStorage::InPlace(ring)
        } else {
            RingsStorage::One(Arc::new(alloc, ring)?)
        };
        Ok(Rings { kept })
    }

    /// Returns the rings, in order.
    pub fn as_slice(&self) -> &[Ring]
        ensures { result.now ≡ self.now }
    {
        match &self.kept {
            RingsStorage::InPlace(ring) => std::slice::from_ref(ring),
            RingsStorage::One(ring) => std::slice::from_ref(ring),
            RingsStorage::Several(rings) => rings.as_slice(),
        }
    }

    /// Returns the same rings once more.
    fn share(&self) -> Result<Rings, AllocError>
        ensures { IfOk result (λ rings. rings ≡ self.now) }
    {
        let kept = match &self.kept {
            RingsStorage::InPlace(ring) => RingsStorage::InPlace(ring.clone()?),
            RingsStorage::One(ring) => RingsStorage::One(Arc::try_clone(ring)?),
            RingsStorage::Several(rings) => RingsStorage::Several(Arc::try_clone(rings)?),
        };
        Ok(Rings { kept })
    }
}

impl PartialEq for Rings {
    ghost use Rattle.lay_layouts.specs.Same.{rings_eq, rings_eq_partial};

    ghost eq = { rings_eq };

    ghost laws = { rings_eq_partial };

    fn eq(&self, other: &Rings) -> bool {
        self.as_slice() == other.as_slice()
    }
}

impl Eq for Rings {
    ghost use Rattle.lay_layouts.specs.Same.{rings_eq_equiv};

    ghost laws = { rings_eq_equiv };
}

/// What a layout holds under an id.
#[derive(Debug, Drop, PartialEq, Eq)]
pub enum Item {
    /// A shape, drawn by rings on a layer of a cell.
    Shape {
        /// The cell in which it stands.
        cell: CellId,
        /// The layer on which it is drawn.
        layer: LayerName,
        /// Its rings, read together.
        rings: Rings,
    },
    /// A call of a symbol: what that holds stands here too, turned.
    Placed {
        /// The cell in which it stands.
        cell: CellId,
        /// The number of the symbol that it calls.
        target: u32,
        /// What is done to all points of the symbol.
        turn: Turn,
    },
}

impl Item {
    /// Returns the cell in which the item stands.
    pub fn cell(&self) -> CellId
        ensures { result ≡ cell_of self.now }
    {
        match self {
            Item::Shape { cell, .. } => *cell,
            Item::Placed { cell: caller, .. } => *caller,
        }
    }

    /// Returns an equal item. Rings are shared, but for a few points in place, so the allocator is not
    /// used.
    ///
    /// # Errors
    ///
    /// `NoMemory`, if an allocation fails.
    pub fn copy(&self, _alloc: Global) -> Result<Item, NoMemory>
        ensures { IsAnswer (record {}) result (Ok self.now) }
    {
        Ok(self.clone()?)
    }
}

impl Clone for Item {
    ghost is_clone = { λ item copy. copy ≡ item };

    fn clone(&self) -> Result<Item, AllocError> {
        match self {
            Item::Shape { cell, layer, rings } => Ok(Item::Shape {
                cell: *cell,
                layer: *layer,
                rings: rings.share()?,
            }),
            Item::Placed {
                cell: caller,
                target,
                turn,
            } => Ok(Item::Placed {
                cell: *caller,
                target: *target,
                turn: *turn,
            }),
        }
    }
}

impl lay_pages::PageValue for Item {
    ghost same = { λ value copy is. is };
}
