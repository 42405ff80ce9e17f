//! Where the boxes of a list are from side to side.
ghost use Rattle.std.specs.Prelude.{◌≡◌, ◌<◌, All, int_le, length};
ghost use Rattle.std.specs.Int.{int_max, int_min};
ghost use Rattle.face_rings.specs.Joining.{IsStretchOf, covers};

use lay_point::Rect;

/// From where the first of some boxes ends to where the last of them starts, by their x. A box that
/// covers it has a column in common with each of them.
#[derive(Clone, Copy, Debug)]
pub(crate) struct Stretch {
    /// The least right side.
    pub first_end: i32,
    /// The greatest left side.
    pub last_start: i32,
}

impl Stretch {
    /// Returns the stretch of the boxes of these numbers.
    pub fn of(boxes: &[Rect], numbers: &[usize]) -> Stretch
        requires { All (λ k. k < length boxes.now) numbers.now }
        ensures { IsStretchOf boxes.now numbers.now result }
    {
        let mut stretch = Stretch {
            first_end: i32::MAX,
            last_start: i32::MIN,
        };
        for number in numbers {
            stretch = stretch.with(boxes[*number]);
        }
        stretch
    }

    /// Returns the stretch with one box more.
    fn with(self, bounds: Rect) -> Stretch
        ensures { result ≡ record {
          first_end = int_min self.first_end bounds.high.x;
          last_start = int_max self.last_start bounds.low.x;
        } }
    {
        Stretch {
            first_end: self.first_end.min(bounds.high.x),
            last_start: self.last_start.max(bounds.low.x),
        }
    }

    /// Returns whether the box reaches over the stretch.
    pub fn is_covered_by(self, bounds: Rect) -> bool
        ensures { result ≡ covers self bounds }
    {
        bounds.low.x <= self.first_end && self.last_start <= bounds.high.x
    }

    /// Returns the x halfway between its ends, on which nothing hangs but the time.
    pub fn middle(self) -> i32 {
        let width = self.last_start.wrapping_sub(self.first_end);
        self.first_end.wrapping_add(width / 2)
    }
}
