//! What the sweeps of all bands look at.
ghost use Rattle.std.specs.Prelude.{◌≡◌, IfOk};
ghost use Rattle.face_rows.specs.Laws.{AreLesserFirst};
ghost use Rattle.face_sweep.specs.Reaches.{IsReach};
ghost use Rattle.face_sweep.specs.Stops.{AreStops, stop_list};
ghost use Rattle.face_labels.specs.RowSides.{IsShared};

use face_sweep::{Reach, Stop, Stops};
use lay_point::NoMemory;
use snap_chains::CleanEdges;
use std::alloc::{AllocError, Global};
use std::thread::{self, Threads};

/// Fewer edges than this aren't worth a thread.
const LEAST: usize = 4096;

/// What the sweeps of all bands of the same edges look at, so that it is found once.
#[derive(Debug, Drop)]
pub struct Shared {
    /// How far each shape reaches, and which shapes need lists of their own edges.
    pub(crate) reach: Reach,
    /// The points at which edges begin or end, in the order of the sweep.
    pub(crate) stops: Stops,
}

impl Shared {
    /// Returns what the sweeps over these edges look at.
    ///
    /// # Errors
    ///
    /// `NoMemory`, if an allocation fails, and where there are more than 2^31 edges or more than 2^32 points.
    ///
    /// # Cost
    ///
    /// Four passes over the edges, two of them over their owners, a sort of where the edges begin, and one of the owners
    /// of those edges that aren't on the border of their shape's box.
    pub fn of_edges(alloc: Global, edges: &CleanEdges) -> Result<Shared, NoMemory>
        ensures { IfOk result (IsShared edges.now) }
    {
        let reach = Reach::of_edges(alloc, edges)?;
        let stops = Stops::of_edges(alloc, edges)?;
        Ok(Shared { reach, stops })
    }

    /// Returns the same as `of_edges`, found in threads if there are many edges: the shapes' boxes in one, and the
    /// stops in as many as there are processors.
    ///
    /// # Errors
    ///
    /// `NoMemory`, if an allocation fails, and where there are more than 2^31 edges or more than 2^32 points.
    ///
    /// # Cost
    ///
    /// That of `of_edges`.
    pub fn of_edges_in_threads(
        rt: &(impl Threads + Sync),
        alloc: Global,
        edges: &CleanEdges,
    ) -> Result<Shared, NoMemory>
        ensures { IfOk result (IsShared edges.now) }
    {
        if edges.edges().len() < LEAST {
            return Shared::of_edges(alloc, edges);
        }
        let reach = || -> Result<Reach, AllocError>
            ensures { IfOk result (IsReach edges.entry.now) }
        { Reach::of_edges(alloc, edges) };
        let stops = || -> Result<Stops, NoMemory>
            ensures stops { IfOk result (AreStops edges.entry.now) }
            ensures lesser { IfOk result (λ stops. AreLesserFirst edges.entry.now.0) }
        { Stops::of_edges_in_threads(rt, alloc, edges) };
        let (reach, stops) = thread::join(rt, reach, stops);
        Ok(Shared {
            reach: reach?,
            stops: stops?,
        })
    }

    /// Returns the points at which edges begin or end, by rows upward, and in a row from right to left.
    pub fn stops(&self) -> &[Stop]
        ensures { result.now ≡ stop_list self.now.stops }
    {
        self.stops.stops()
    }
}
