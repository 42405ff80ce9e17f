//! Where to divide a list of segments. Nothing here is a matter of correctness: a list may be divided into any
//! strips, or not at all.
use crate::cell::{Cell, Lengths};
use crate::counts::Counts;
use crate::measure::{Direction, Measure};
use crate::segment::Segment;
use crate::strips::Strips;
use std::alloc::{AllocError, Global};

/// There is a cell for so many segments.
const CROWD: usize = 8;

/// A segment in a list costs as much as so many pairs, counted twice.
const LISTING: usize = 6;

/// A list's counts, where its segments may cross, and how many more times all of them together may be listed.
#[derive(Clone, Copy, Debug)]
pub(crate) struct Room {
    pub counts: Counts,
    pub cell: Cell,
    pub spare: usize,
}

/// Strips, and the counts of the segments in each.
#[derive(Debug, Drop)]
pub(crate) struct Division {
    pub strips: Strips,
    pub counts: Vec<Counts>,
    room: Room,
    /// The pairs that are asked in all strips, counted twice.
    pairs: usize,
    /// How many segments are listed in the strips in which pairs are asked.
    listed: usize,
}

impl Division {
    /// Returns a division of the segments in which fewer pairs are asked, or `None`. They have this room, and are in
    /// the order of kinds. Columns or rows are taken, where these serve, whichever there are more of; otherwise
    /// strips along the slanted segment in the middle of the list. Parallel segments, which columns and rows hardly
    /// tell apart, are told apart so.
    ///
    /// # Errors
    ///
    /// `AllocError`, if an allocation fails.
    pub fn of(
        alloc: Global,
        segments: &[Segment],
        mut room: Room,
    ) -> Result<Option<Division>, AllocError> {
        room.cell = room.cell.narrowed(segments, room.counts);
        let (first, second) = columns_and_rows(room.cell, segments, room.spare);
        for strips in [first, second] {
            let division = Division::serving(alloc, strips, segments, room)?;
            if division.is_some() {
                return Ok(division);
            }
        }
        Division::serving(alloc, slanted(segments, room), segments, room)
    }

    /// Returns the division of the segments by the strips, if there are any and it serves.
    fn serving(
        alloc: Global,
        strips: Option<Strips>,
        segments: &[Segment],
        room: Room,
    ) -> Result<Option<Division>, AllocError> {
        let Some(strips) = strips else {
            return Ok(None);
        };
        let division = Division::by(strips, strips.counts(alloc, segments)?, room);
        if division.serves() {
            return Ok(Some(division));
        }
        Ok(None)
    }

    /// Returns the division by the strips, in which the segments have these counts.
    fn by(strips: Strips, counts: Vec<Counts>, room: Room) -> Division {
        let mut pairs: usize = 0;
        let mut listed: usize = 0;
        for count in counts.as_slice() {
            if count.pairs() > 0 {
                pairs = pairs.saturating_add(count.pairs());
                listed = listed.saturating_add(count.all());
            }
        }
        Division {
            strips,
            counts,
            room,
            pairs,
            listed,
        }
    }

    /// Returns whether the division is allowed, and saves more than it costs.
    fn serves(&self) -> bool {
        let whole = self.room.counts;
        let cost = self
            .pairs
            .saturating_add(self.listed.saturating_mul(LISTING));
        self.repeats() <= self.room.spare && cost < whole.pairs() / 8 * 7
    }

    /// Returns the room of the list of this number: its strip, and the share of what is spare that its pairs have.
    pub fn room(&self, number: usize) -> Room {
        let counts = self.counts.get(number).copied().unwrap_or(Counts::none());
        let spare = self.room.spare.saturating_sub(self.repeats());
        Room {
            counts,
            cell: self.room.cell.part(self.strips, number),
            spare: share(spare, counts.pairs(), self.pairs),
        }
    }

    /// Returns how many more segments are listed than there were.
    fn repeats(&self) -> usize {
        self.listed.saturating_sub(self.room.counts.all())
    }
}

/// Returns the share of what is spare that so many of the pairs have.
fn share(spare: usize, part: usize, whole: usize) -> usize {
    spare.saturating_mul(part) / whole.max(1)
}

/// Returns columns and rows of the cell, as wide as the segments are long, or wider, so that there are cells of
/// some segments each; first those that there are more of.
fn columns_and_rows(
    cell: Cell,
    segments: &[Segment],
    spare: usize,
) -> (Option<Strips>, Option<Strips>) {
    let cells = segments.len() / CROWD;
    let (mut column, mut row) = cell.lengths(segments);
    column = column.fitted(spare);
    row = row.fitted(spare);
    for _turn in 0..64 {
        if column.number().saturating_mul(row.number()) <= cells {
            break;
        }
        if column.number() > row.number() {
            column = column.widened();
        } else {
            row = row.widened();
        }
    }
    let columns = column.strips(Measure::Column);
    let rows = row.strips(Measure::Row);
    if column.number() < row.number() {
        return (rows, columns);
    }
    (columns, rows)
}

/// Returns strips along the slanted segment in the middle of the list, or `None` where there is none.
fn slanted(segments: &[Segment], room: Room) -> Option<Strips> {
    let middle = room.counts.middle_slanted(segments)?;
    let measure = Measure::Slanted(Direction::across(middle));
    let mut strip = Lengths::along(measure, segments).fitted(room.spare);
    for _turn in 0..64 {
        if strip.number() <= segments.len() / CROWD {
            break;
        }
        strip = strip.widened();
    }
    strip.strips(measure)
}
