//! Boxes of places, and how long the segments in them are. Nothing here is a matter of correctness.
use crate::counts::Counts;
use crate::measure::Measure;
use crate::segment::Segment;
use crate::strips::Strips;
use lay_point::Point;

/// The places between two points.
#[derive(Clone, Copy, Debug)]
pub(crate) struct Cell {
    low: Point,
    high: Point,
}

impl Cell {
    /// Returns the box round the segments.
    pub fn round(segments: &[Segment]) -> Cell {
        let origin = Point { x: 0, y: 0 };
        let corner = segments.first().map_or(origin, |first: &Segment| first.a());
        let mut cell = Cell {
            low: corner,
            high: corner,
        };
        for segment in segments {
            cell = cell.with(segment.a()).with(segment.b());
        }
        cell
    }

    /// Returns the box with this point.
    fn with(self, point: Point) -> Cell {
        Cell {
            low: Point {
                x: self.low.x.min(point.x),
                y: self.low.y.min(point.y),
            },
            high: Point {
                x: self.high.x.max(point.x),
                y: self.high.y.max(point.y),
            },
        }
    }

    /// Returns the part of the box in which those of the segments may cross that are asked about each other. The
    /// segments have these counts, and are in the order of their kinds.
    pub fn narrowed(self, segments: &[Segment], counts: Counts) -> Cell {
        let (not_upright, not_level) = counts.asked(segments);
        self.within(Cell::round(not_upright))
            .within(Cell::round(not_level))
    }

    /// Returns the part of the box that is in the other one.
    fn within(self, other: Cell) -> Cell {
        Cell {
            low: Point {
                x: self.low.x.max(other.low.x),
                y: self.low.y.max(other.low.y),
            },
            high: Point {
                x: self.high.x.min(other.high.x),
                y: self.high.y.min(other.high.y),
            },
        }
    }

    /// Returns the part of the box in the strip of this number.
    pub fn part(self, strips: Strips, number: usize) -> Cell {
        let (low, high) = strips.ends(number);
        match strips.measure {
            Measure::Column => Cell {
                low: Point {
                    x: self.low.x.max(low),
                    y: self.low.y,
                },
                high: Point {
                    x: self.high.x.min(high),
                    y: self.high.y,
                },
            },
            Measure::Row => Cell {
                low: Point {
                    x: self.low.x,
                    y: self.low.y.max(low),
                },
                high: Point {
                    x: self.high.x,
                    y: self.high.y.min(high),
                },
            },
            Measure::Slanted(_) => self,
        }
    }

    /// Returns how long the segments are in the box, along x and along y.
    pub fn lengths(self, segments: &[Segment]) -> (Lengths, Lengths) {
        let mut column = Lengths::none(i64::from(self.low.x), i64::from(self.high.x));
        let mut row = Lengths::none(i64::from(self.low.y), i64::from(self.high.y));
        for segment in segments {
            let (a, b) = (segment.a(), segment.b());
            column = column.with(i64::from(a.x), i64::from(b.x));
            row = row.with(i64::from(a.y), i64::from(b.y));
        }
        (column, row)
    }
}

/// How long segments are, between two numbers, and a width of strips.
#[derive(Clone, Copy, Debug)]
pub(crate) struct Lengths {
    low: i64,
    high: i64,
    /// The number of the segments.
    many: u64,
    /// The sum of their lengths.
    sum: u64,
    /// The bits of the width.
    shift: u32,
}

impl Lengths {
    /// Returns those of no segments.
    fn none(low: i64, high: i64) -> Lengths {
        Lengths {
            low,
            high: high.max(low),
            many: 0,
            sum: 0,
            shift: 0,
        }
    }

    /// Returns those with one more segment, which is between these numbers.
    fn with(mut self, a: i64, b: i64) -> Lengths {
        let low = a.min(b).max(self.low).min(self.high);
        let high = a.max(b).max(self.low).min(self.high);
        self.many = self.many.saturating_add(1);
        self.sum = self.sum.saturating_add(high.abs_diff(low));
        self
    }

    /// Returns those of the segments by this measure, from the least far end to the farthest.
    pub fn along(measure: Measure, segments: &[Segment]) -> Lengths {
        let mut low = i64::MAX;
        let mut high = i64::MIN;
        let mut sum: u64 = 0;
        for segment in segments {
            let (a, b) = (measure.of(segment.a()), measure.of(segment.b()));
            low = low.min(a.min(b));
            high = high.max(a.max(b));
            sum = sum.saturating_add(a.abs_diff(b));
        }
        Lengths {
            low,
            high: high.max(low),
            many: segments.len() as u64,
            sum,
            shift: 0,
        }
    }

    /// Returns these with strips at least half as wide as a segment is long on average, of which the segments are
    /// in so many more than one at most, all together.
    pub fn fitted(mut self, spare: usize) -> Lengths {
        let mean = self.sum / self.many.max(1);
        for _turn in 0..63 {
            let width = 1u64.wrapping_shl(self.shift);
            if width >= mean / 2 && self.sum / width.max(1) <= spare as u64 {
                break;
            }
            self.shift = self.shift.saturating_add(1);
        }
        self
    }

    /// Returns these with strips twice as wide.
    pub fn widened(mut self) -> Lengths {
        self.shift = self.shift.saturating_add(1);
        self
    }

    /// Returns how many strips there are.
    pub fn number(self) -> usize {
        let last = self
            .high
            .abs_diff(self.low)
            .wrapping_shr(self.shift.min(62));
        (last as usize).saturating_add(1)
    }

    /// Returns the strips by this measure, or `None` where there would be one. There is one more at each end, for
    /// the segments beyond.
    pub fn strips(self, measure: Measure) -> Option<Strips> {
        let number = self.number();
        if number < 2 {
            return None;
        }
        let shift = self.shift.min(62);
        Some(Strips {
            measure,
            from: self.low.saturating_sub(1i64.wrapping_shl(shift)),
            shift,
            last: number.saturating_add(1),
        })
    }
}
