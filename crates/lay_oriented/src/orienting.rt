//! The rings of one shape, with directions for which winding number and parity agree.
ghost use Rattle.std.specs.Prelude.{◌≡◌, IfOk, IfSome, true};
ghost use Rattle.std.specs.List.{AllByRecursion};
ghost use Rattle.lay_point.specs.RingEdges.{edges_of};
ghost use Rattle.lay_point.specs.Rings.{IsRing};
ghost use Rattle.lay_oriented.specs.Net.{PassAlike};
ghost use Rattle.lay_oriented.specs.Oriented.{AreOriented, IsOriented};

use crate::joining::joined;
use crate::linking::{linked, ring_round};
use crate::net::{are_same, net_edges};
use crate::once::wind_once;
use crate::winding_directing::directed;
use lay_point::{NoMemory, Point, Ring};
use std::alloc::Global;

/// What was found for the rings of a shape.
#[derive(Debug, Drop)]
pub enum Oriented {
    /// They go round as they are.
    Already,
    /// These rings do: of the same edges with other directions, or one ring round them.
    Turned(Vec<Ring>),
    /// None were found.
    No,
}

/// Looks for rings that go once round each place that is inside by the parity of the given ones, and not
/// round any other: these rings if they do so, else these turned round, else rings of the same edges with
/// other directions. So they, and the one path round all of them, are read alike by winding number and by
/// parity. Where they are several, one ring round all of them, along short ways between them, is the answer.
///
/// The answer is `No` where no such rings were found, as where edges cross or partly lie on one
/// another. Each answer is checked before it is given; that there is one for rings whose edges meet at
/// ends alone is tested, and not proved. So is the one ring: the answer has several where it would be
/// longer than a ring may be.
pub(crate) fn orient(alloc: Global, rings: &[Ring]) -> Result<Oriented, NoMemory>
    ensures { IfOk result (IsOriented rings.now) }
{
    are_rings(rings);
    if wind_once(alloc, rings)? {
        return as_they_are(alloc, rings);
    }
    match turned(alloc, rings)? {
        Some(new) => in_one(alloc, rings, new),
        None => Ok(Oriented::No),
    }
}

/// Returns the one ring round these, which go round as they are.
fn as_they_are(alloc: Global, rings: &[Ring]) -> Result<Oriented, NoMemory>
    requires { AreOriented rings.now rings.now }
    ensures { IfOk result (IsOriented rings.now) }
{
    match joined(alloc, rings)? {
        Some(one) => Ok(Oriented::Turned(one)),
        None => Ok(Oriented::Already),
    }
}

/// Returns the one ring round the new ones, or these.
fn in_one(alloc: Global, _rings: &[Ring], new: Vec<Ring>) -> Result<Oriented, NoMemory>
    requires { AreOriented _rings.now new.items }
    ensures { IfOk result (IsOriented _rings.now) }
{
    match joined(alloc, new.as_slice())? {
        Some(one) => Ok(Oriented::Turned(one)),
        None => Ok(Oriented::Turned(new)),
    }
}

/// Looks for rings of the same edges with other directions: those turned round, else those directed edge by
/// edge.
fn turned(alloc: Global, rings: &[Ring]) -> Result<Option<Vec<Ring>>, NoMemory>
    ensures { IfOk result (λ found. IfSome found (λ new. AreOriented rings.now new.items)) }
{
    let edges = net_edges(alloc, rings)?;
    let back = turned_round(alloc, rings)?;
    if let Some(new) = checked(alloc, rings, edges.as_slice(), back)? {
        return Ok(Some(new));
    }
    let new = linked(alloc, directed(alloc, edges.as_slice())?)?;
    checked(alloc, rings, edges.as_slice(), new)
}

/// Returns each of the rings turned round, from the same first point.
fn turned_round(alloc: Global, rings: &[Ring]) -> Result<Option<Vec<Ring>>, NoMemory> {
    let mut new = Vec::with_capacity(alloc, rings.len())?;
    for ring in rings {
        let mut points = ring.points().to_vec(alloc)?;
        if let Some((_, behind)) = points.as_mut_slice().split_first_mut() {
            behind.reverse();
        }
        let Some(ring) = ring_round(alloc, points.as_slice())? else {
            return Ok(None);
        };
        new.push(ring)?;
    }
    Ok(Some(new))
}

/// Returns the new rings, where they have these edges of the old ones and go round places at most once.
fn checked(
    alloc: Global,
    _rings: &[Ring],
    edges: &[(Point, Point)],
    found: Option<Vec<Ring>>,
) -> Result<Option<Vec<Ring>>, NoMemory>
    requires { PassAlike edges.now (edges_of _rings.now) }
    ensures { IfOk result (λ found. IfSome found (λ new. AreOriented _rings.now new.items)) }
{
    let Some(new) = found else {
        return Ok(None);
    };
    if !have_edges(alloc, new.as_slice(), edges)? {
        return Ok(None);
    }
    if !wind_once(alloc, new.as_slice())? {
        return Ok(None);
    }
    are_rings(new.as_slice());
    Ok(Some(new))
}

/// Returns whether these are the edges that stand an odd number of times in the rings.
fn have_edges(alloc: Global, rings: &[Ring], edges: &[(Point, Point)]) -> Result<bool, NoMemory>
    ensures { IfOk result (λ same. same ≡ true → PassAlike (edges_of rings.now) edges.now) }
{
    let found = net_edges(alloc, rings)?;
    Ok(are_same(found.as_slice(), edges))
}

/// Shows that these are rings, as their type keeps.
///
/// # Cost
///
/// A pass over the rings.
pub(crate) fn are_rings(rings: &[Ring])
    ensures { AllByRecursion IsRing rings.now }
{
    let mut rest = rings;
    while let Some((ring, behind)) = rest.split_first() {
        let _ = ring.points();
        rest = behind;
    }
}
