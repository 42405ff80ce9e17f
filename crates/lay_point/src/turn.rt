//! Turns: mirrors, quarter turns and shifts of the layout's plane.
ghost use Rattle.std.specs.Prelude.{◌≡◌, neg_ℤ, ◌+ℤ◌, Some, None, if◌then◌else◌};
ghost use Rattle.lay_point.specs.Points.{is_in_range};
ghost use Rattle.lay_point.specs.SameTurn.{quarter_turns};
ghost use Rattle.lay_point.specs.Turns.{
  composed,
  composed_quarter,
  mirrored_x,
  next_quarter,
  opposite,
};
ghost use Rattle.lay_point.specs.Turns.{quarters, turned, turned_by, unturned, within_range};
ghost use Rattle.lay_point.specs.TurnMaps.{ComposedMap, IsNearby};

use crate::point::Point;

/// A number of quarter turns anticlockwise round the origin.
#[derive(Clone, Copy, Debug)]
pub enum Quarter {
    /// None.
    R0,
    /// One: (1, 0) goes to (0, 1).
    R90,
    /// Two.
    R180,
    /// Three: (1, 0) goes to (0, -1).
    R270,
}

/// A map of points: x times -1 first where it mirrors, then the quarter turns, then the shift.
#[derive(Clone, Copy, Debug, PartialEq, Eq)]
pub struct Turn {
    /// Whether x is multiplied by -1 first.
    pub mirror: bool,
    /// The quarter turns that come next.
    pub quarter: Quarter,
    /// What is added last. One of a layout is in range.
    pub shift: Point,
}

impl Quarter {
    /// Returns how many quarter turns these are.
    fn count(self) -> u8
        ensures { result ≡ quarter_turns self }
    {
        match self {
            Quarter::R0 => 0,
            Quarter::R90 => 1,
            Quarter::R180 => 2,
            Quarter::R270 => 3,
        }
    }

    /// Returns one quarter turn more.
    fn next(self) -> Quarter
        ensures { result ≡ next_quarter self }
    {
        match self {
            Quarter::R0 => Quarter::R90,
            Quarter::R90 => Quarter::R180,
            Quarter::R180 => Quarter::R270,
            Quarter::R270 => Quarter::R0,
        }
    }

    /// Returns these quarter turns, and those behind them.
    fn and(self, more: Quarter) -> Quarter
        ensures { result ≡ quarters self more }
    {
        match more {
            Quarter::R0 => self,
            Quarter::R90 => self.next(),
            Quarter::R180 => self.next().next(),
            Quarter::R270 => self.next().next().next(),
        }
    }

    /// Returns as many quarter turns clockwise.
    fn opposite(self) -> Quarter
        ensures { result ≡ opposite self }
    {
        match self {
            Quarter::R0 => Quarter::R0,
            Quarter::R90 => Quarter::R270,
            Quarter::R180 => Quarter::R180,
            Quarter::R270 => Quarter::R90,
        }
    }

    /// Returns the x coordinate of where these quarter turns take a place.
    fn turned_x(self, x: i64, y: i64) -> i64
        requires x { IsNearby x }
        requires y { IsNearby y }
        ensures value { result ≡ (turned_by self (record { x = x; y = y })).x }
        ensures nearby { IsNearby result }
    {
        match self {
            Quarter::R0 => x,
            Quarter::R90 => negative(y),
            Quarter::R180 => negative(x),
            Quarter::R270 => y,
        }
    }

    /// Returns the y coordinate of where these quarter turns take a place.
    fn turned_y(self, x: i64, y: i64) -> i64
        requires x { IsNearby x }
        requires y { IsNearby y }
        ensures value { result ≡ (turned_by self (record { x = x; y = y })).y }
        ensures nearby { IsNearby result }
    {
        match self {
            Quarter::R0 => y,
            Quarter::R90 => x,
            Quarter::R180 => negative(y),
            Quarter::R270 => negative(x),
        }
    }
}

impl PartialEq for Quarter {
    ghost use Rattle.lay_point.specs.SameTurn.{quarter_eq, quarter_eq_partial};

    ghost eq = { quarter_eq };

    ghost laws = { quarter_eq_partial };

    fn eq(&self, other: &Quarter) -> bool {
        self.count() == other.count()
    }
}

impl Eq for Quarter {
    ghost use Rattle.lay_point.specs.SameTurn.{quarter_eq_equiv};

    ghost laws = { quarter_eq_equiv };
}

impl Turn {
    /// Returns the turn that changes nothing.
    pub fn unturned() -> Turn
        ensures { result ≡ unturned }
    {
        Turn {
            mirror: false,
            quarter: Quarter::R0,
            shift: Point { x: 0, y: 0 },
        }
    }

    /// Returns the turn that does this one first and then `next`, or `None` where its shift is out of
    /// range.
    #[tactic(auto, unfolding(crate::specs::Turns::composed))]
    pub fn then(self, next: Turn) -> Option<Turn>
        ensures value { result ≡ (if is_in_range (composed self next).shift
            then Some (composed self next) else None) }
        ensures map { ComposedMap self next }
    {
        let shift = next.apply(self.shift)?;
        Some(Turn {
            mirror: self.mirror != next.mirror,
            quarter: composed_quarter(self.quarter, next),
            shift,
        })
    }

    /// Returns where the turn takes the point, or `None` where that is out of range.
    pub fn apply(self, point: Point) -> Option<Point>
        ensures { result ≡ within_range (turned self point) }
    {
        Point::within_range(self.turned_x(point), self.turned_y(point))
    }

    /// Returns the x coordinate of where the turn takes the point.
    #[tactic(auto, unfolding(crate::specs::Turns::turned))]
    fn turned_x(self, point: Point) -> i128
        ensures { result ≡ (turned self point).x }
    {
        let x = mirrored_x(self.mirror, point.x);
        shifted(self.quarter.turned_x(x, i64::from(point.y)), self.shift.x)
    }

    /// Returns the y coordinate of where the turn takes the point.
    #[tactic(auto, unfolding(crate::specs::Turns::turned))]
    fn turned_y(self, point: Point) -> i128
        ensures { result ≡ (turned self point).y }
    {
        let x = mirrored_x(self.mirror, point.x);
        shifted(self.quarter.turned_y(x, i64::from(point.y)), self.shift.y)
    }
}

/// Returns the quarter turns of a turn that follows these: a mirror between goes the other way round.
fn composed_quarter(first: Quarter, next: Turn) -> Quarter
    ensures { result ≡ composed_quarter first next }
{
    if next.mirror {
        first.opposite().and(next.quarter)
    } else {
        first.and(next.quarter)
    }
}

/// Returns the x coordinate after the mirror, if it is one.
fn mirrored_x(mirror: bool, x: i32) -> i64
    ensures value { result ≡ mirrored_x mirror x }
    ensures nearby { IsNearby result }
{
    let wide = i64::from(x);
    if mirror { -wide } else { wide }
}

/// Returns the number times -1.
fn negative(place: i64) -> i64
    requires { IsNearby place }
    ensures value { result ≡ neg_ℤ place }
    ensures nearby { IsNearby result }
{
    -place
}

/// Returns the place behind a shift.
fn shifted(place: i64, shift: i32) -> i128
    requires { IsNearby place }
    ensures { result ≡ place +ℤ shift }
{
    i128::from(place) + i128::from(shift)
}
