//! Points of the layout's grid, in database units.
ghost use Rattle.std.specs.Prelude.{◌≡◌, ◌↔◌, IsTrue, Some, None, if◌then◌else◌};
ghost use Rattle.lay_point.specs.Points.{IsBefore, is_coordinate, is_in_range};
ghost use Rattle.lay_point.specs.Turns.{within_range};

/// The greatest magnitude of a coordinate or a shift in a layout, in database units.
pub const LIMIT: i32 = 1 << 30;

const _: () = prove!(LIMIT == 1_073_741_824);

/// A point. One of a layout has both coordinates in `-LIMIT..=LIMIT`.
#[derive(Clone, Copy, Debug, PartialEq, Eq, PartialOrd, Ord, Default)]
pub struct Point {
    /// The coordinate along the x axis, in database units.
    pub x: i32,
    /// The coordinate along the y axis, in database units.
    pub y: i32,
}

impl Point {
    /// Returns the point at this place, or `None` where it is out of a layout's range.
    pub fn within_range(x: i128, y: i128) -> Option<Point>
        ensures { result ≡ within_range (record { x = x; y = y }) }
    {
        let x = coordinate(x)?;
        let y = coordinate(y)?;
        Some(Point { x, y })
    }

    /// Returns whether both coordinates are within the limit of a layout.
    pub fn is_in_range(self) -> bool
        ensures { result ≡ is_in_range self }
    {
        (-LIMIT..=LIMIT).contains(&self.x) && (-LIMIT..=LIMIT).contains(&self.y)
    }

    /// Returns whether the point is less than the other in the order of points: by x, then by y.
    pub fn is_before(self, other: Point) -> bool
        ensures { IsTrue result ↔ IsBefore self other }
    {
        self < other
    }
}

/// Returns the place as a coordinate, where it is one of a layout.
fn coordinate(place: i128) -> Option<i32>
    ensures { result ≡ (if is_coordinate place then Some place else None) }
{
    if (-i128::from(LIMIT)..=i128::from(LIMIT)).contains(&place) {
        Some(place as i32)
    } else {
        None
    }
}
