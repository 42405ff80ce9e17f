//! A column across which a list of boxes is divided.
ghost use Rattle.std.specs.Prelude.{◌≡◌, ◌<◌, All, IfOk, length};
ghost use Rattle.face_rings.specs.Joining.{AreByBottom, IsPartOf, box_reaches_high, box_reaches_low};

use crate::stretch::Stretch;
use lay_point::Rect;
use std::alloc::{AllocError, Global};

/// A column across the stretch of a list of boxes. Those that cover the stretch are on neither side.
#[derive(Clone, Copy, Debug)]
pub(crate) struct Cut {
    /// From the first end to the last start of the boxes.
    pub stretch: Stretch,
    /// The x of the column.
    pub column: i32,
}

impl Cut {
    /// Returns the column halfway through the stretch.
    pub fn halving(stretch: Stretch) -> Cut
        ensures { result.stretch ≡ stretch }
    {
        Cut {
            stretch,
            column: stretch.middle(),
        }
    }

    /// Returns whether a corner of the box is on the column or to its left.
    pub fn reaches_low(self, bounds: Rect) -> bool
        ensures { result ≡ box_reaches_low self bounds }
    {
        !self.stretch.is_covered_by(bounds)
            && (bounds.low.x <= self.column || bounds.high.x <= self.column)
    }

    /// Returns whether a corner of the box is to the right of the column.
    pub fn reaches_high(self, bounds: Rect) -> bool
        ensures { result ≡ box_reaches_high self bounds }
    {
        !self.stretch.is_covered_by(bounds)
            && (self.column < bounds.low.x || self.column < bounds.high.x)
    }

    /// Returns those of the numbers whose boxes reach the lower side.
    ///
    /// # Errors
    ///
    /// `AllocError`, if an allocation fails.
    pub fn low_part(
        self,
        alloc: Global,
        boxes: &[Rect],
        numbers: &[usize],
    ) -> Result<Vec<usize>, AllocError>
        requires inside { All (λ k. k < length boxes.now) numbers.now }
        requires by_bottom { AreByBottom boxes.now numbers.now }
        ensures { IfOk result (λ part. IsPartOf (box_reaches_low self) boxes.now numbers.now part.items) }
    {
        let mut part = Vec::new(alloc);
        for number in numbers {
            if self.reaches_low(boxes[*number]) {
                part.push(*number)?;
            }
        }
        Ok(part)
    }

    /// Returns those of the numbers whose boxes reach the higher side.
    ///
    /// # Errors
    ///
    /// `AllocError`, if an allocation fails.
    pub fn high_part(
        self,
        alloc: Global,
        boxes: &[Rect],
        numbers: &[usize],
    ) -> Result<Vec<usize>, AllocError>
        requires inside { All (λ k. k < length boxes.now) numbers.now }
        requires by_bottom { AreByBottom boxes.now numbers.now }
        ensures { IfOk result (λ part. IsPartOf (box_reaches_high self) boxes.now numbers.now part.items) }
    {
        let mut part = Vec::new(alloc);
        for number in numbers {
            if self.reaches_high(boxes[*number]) {
                part.push(*number)?;
            }
        }
        Ok(part)
    }
}
