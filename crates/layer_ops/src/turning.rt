//! The rings of flattenings where their turns take them.
ghost use Rattle.std.specs.Prelude.{◌≡◌, ◌++◌, All, IfOk, IsTrue, OnOk, map};
ghost use Rattle.std.specs.List.{list_all};
ghost use Rattle.lay_point.specs.declared.point.Point.{Point};
ghost use Rattle.lay_point.specs.Points.{is_in_range};
ghost use Rattle.lay_point.specs.SameTurn.{turn_eq};
ghost use Rattle.lay_point.specs.Turns.{turned, unturned};
ghost use Rattle.lay_flat.specs.Flat.{IsFlat};
ghost use Rattle.bool_rules.specs.Shapes.{owned_by};

use lay_flat::{Flat, FlatRing};
use lay_point::{NoMemory, Point, Turn};
use snap_chains::{Input, OwnedRing, Owner};
use std::alloc::{AllocError, Global};
use std::marker::Model;

/// A ring where its turn takes it. Contracts see the pair of its owner and the list of its points
/// there.
#[derive(Debug, Drop)]
pub(crate) struct TurnedRing<'s> {
    owner: Owner,
    /// The points as they are lent.
    lent: &'s [Point],
    /// The points where the turn takes them, unless it takes each where it is.
    copied: Option<Vec<Point>>,
}

impl<'s> Model for TurnedRing<'s> {
    ghost use Rattle.std.specs.Prelude.{List};
    ghost use Rattle.std.specs.Option.{option_map_or};
    ghost use Rattle.lay_point.specs.declared.point.Point.{Point};
    ghost use Rattle.snap_chains.specs.declared.owner.Owner.{Owner};

    ghost Value = { Owner × List Point };

    ghost view = { λ r. (r.owner, option_map_or (λ v. v.items) r.copied r.lent.now) };
}

impl<'s> TurnedRing<'s> {
    /// Lends the ring with its owner.
    fn lend(&self) -> OwnedRing<'_>
        ensures { result ≡ self.now }
    {
        let points = match &self.copied {
            Some(points) => points.as_slice(),
            None => self.lent,
        };
        OwnedRing {
            owner: self.owner,
            points,
        }
    }
}

/// Adds the rings of a flattening, turned, as rings of this input.
pub(crate) fn add_turned<'s>(
    alloc: Global,
    rings: &mut Vec<TurnedRing<'s>>,
    input: Input,
    flat: &Flat<'s>,
) -> Result<(), NoMemory>
    ensures ok { OnOk result (rings.new.items ≡ rings.old.items ++ map (owned_by input) flat.now) }
    ensures flat { All IsFlat flat.now }
{
    for ring in flat.rings() {
        rings.push(turned_ring(alloc, input, ring)?)?;
    }
    Ok(())
}

/// Lends all rings with their owners.
pub(crate) fn lend_all<'t>(
    alloc: Global,
    rings: &'t [TurnedRing<'_>],
) -> Result<Vec<OwnedRing<'t>>, NoMemory>
    ensures { IfOk result (λ lent. lent.items ≡ rings.now) }
{
    let mut lent = Vec::with_capacity(alloc, rings.len())?;
    for ring in rings {
        lent.push(ring.lend())?;
    }
    Ok(lent)
}

/// Returns the ring where its turn takes it, as one of this input.
fn turned_ring<'s>(
    alloc: Global,
    input: Input,
    ring: &FlatRing<'s>,
) -> Result<TurnedRing<'s>, NoMemory>
    requires { IsFlat ring.now }
    ensures { IfOk result (λ r. r ≡ owned_by input ring.now) }
{
    let owner = Owner {
        input,
        shape: ring.shape_no,
    };
    let copied = if is_unturned(ring.turn) {
        None
    } else {
        Some(turned_points(alloc, ring.turn, ring.points)?)
    };
    Ok(TurnedRing {
        owner,
        lent: ring.points,
        copied,
    })
}

/// Returns the points where the turn takes them.
fn turned_points(alloc: Global, turn: Turn, points: &[Point]) -> Result<Vec<Point>, AllocError>
    requires { IsTrue (list_all (λ p. is_in_range (turned turn p)) points.now) }
    ensures { IfOk result (λ all. all.items ≡ map (turned turn) points.now) }
{
    let mut all = Vec::with_capacity(alloc, points.len())?;
    for point in points {
        all.push(turned_point(turn, *point))?;
    }
    Ok(all)
}

/// Returns where the turn takes the point.
fn turned_point(turn: Turn, point: Point) -> Point
    requires { IsTrue (is_in_range (turned turn point)) }
    ensures { result ≡ turned turn point }
{
    turn.apply(point).unwrap()
}

/// Returns whether the turn takes each point where it is.
fn is_unturned(turn: Turn) -> bool
    ensures { result ≡ turn_eq turn unturned }
{
    turn == Turn::unturned()
}
