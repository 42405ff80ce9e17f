//! Where the search of a centre begins. Nothing here is a matter of correctness: any index will do.
use lay_point::Point;
use snap_pixels::from_least;
use std::alloc::{AllocError, Global};

/// There is a bucket for so many centres.
const CROWD: usize = 2;

/// The first centre of each bucket. Points are taken as numbers of 64 bits in their order, and all buckets are equally wide.
#[derive(Debug, Drop)]
pub(crate) struct Buckets {
    /// Where the first bucket begins.
    from: u64,
    /// The bits of a bucket's width.
    shift: u32,
    /// The number of the first centre that isn't before the bucket.
    first: Vec<u32>,
}

impl Buckets {
    /// Returns the buckets of these centres, which are in the order of points.
    ///
    /// # Errors
    ///
    /// `AllocError`, if an allocation fails.
    pub fn of(alloc: Global, centres: &[Point]) -> Result<Buckets, AllocError> {
        let from = centres.first().map_or(0, |least: &Point| packed(*least));
        let to = centres
            .last()
            .map_or(0, |greatest: &Point| packed(*greatest));
        let many = (centres.len() / CROWD).max(1);
        let shift = bits_of(to.saturating_sub(from)).saturating_sub(bits_of(many as u64));
        let mut buckets = Buckets {
            from,
            shift,
            first: Vec::with_capacity(alloc, many)?,
        };
        for (number, centre) in centres.iter().enumerate() {
            buckets.reach(*centre, u32::try_from(number).unwrap_or(u32::MAX))?;
        }
        Ok(buckets)
    }

    /// Returns the number of a centre near the point.
    pub fn near(&self, point: Point) -> usize {
        self.first
            .get(self.index(point))
            .map_or(0, |number: &u32| *number as usize)
    }

    /// Has the buckets without a first centre, up to the centre's own, begin with it.
    fn reach(&mut self, centre: Point, number: u32) -> Result<(), AllocError> {
        for _ in self.first.len()..self.index(centre).saturating_add(1) {
            self.first.push(number)?;
        }
        Ok(())
    }

    /// Returns the index of the point's bucket.
    fn index(&self, point: Point) -> usize {
        packed(point)
            .saturating_sub(self.from)
            .wrapping_shr(self.shift) as usize
    }
}

/// Returns how many bits the number has.
fn bits_of(number: u64) -> u32 {
    64 - number.leading_zeros()
}

/// Returns the point as a number. These numbers are in the order of points.
fn packed(point: Point) -> u64 {
    from_least(point.x) * 4_294_967_296 + from_least(point.y)
}
