//! Numbers of segments by kind, and of the pairs that a search asks. Nothing here is a matter of correctness.
use crate::kind::Kind;
use crate::segment::Segment;

/// How many segments there are of each kind.
#[derive(Clone, Copy, Debug)]
pub(crate) struct Counts {
    levels: usize,
    slanted: usize,
    uprights: usize,
}

impl Counts {
    /// Returns the counts of no segments.
    pub fn none() -> Counts {
        Counts {
            levels: 0,
            slanted: 0,
            uprights: 0,
        }
    }

    /// Returns the counts of the segments.
    pub fn of(segments: &[Segment]) -> Counts {
        let mut counts = Counts::none();
        for segment in segments {
            counts = counts.with(Kind::of(segment), 1);
        }
        counts
    }

    /// Returns the counts with so many more of the kind.
    pub fn with(mut self, kind: Kind, more: usize) -> Counts {
        match kind {
            Kind::Level => self.levels = self.levels.saturating_add(more),
            Kind::Slanted => self.slanted = self.slanted.saturating_add(more),
            Kind::Upright => self.uprights = self.uprights.saturating_add(more),
        }
        self
    }

    /// Returns the number of segments.
    pub fn all(self) -> usize {
        self.levels
            .saturating_add(self.slanted)
            .saturating_add(self.uprights)
    }

    /// Returns twice the number of pairs that are asked, about: those of a level segment and an upright one,
    /// and those with a slanted one. Saturates.
    pub fn pairs(self) -> usize {
        let crossed = self.levels.saturating_mul(self.uprights);
        let straight = self.levels.saturating_add(self.uprights);
        let among_slanted = self.slanted.saturating_mul(self.slanted);
        crossed
            .saturating_add(self.slanted.saturating_mul(straight))
            .saturating_mul(2)
            .saturating_add(among_slanted)
    }

    /// Returns those that aren't upright and those that aren't level, of a list that has these counts and is in
    /// the order of kinds. Each pair that is asked has one of either.
    pub fn asked(self, segments: &[Segment]) -> (&[Segment], &[Segment]) {
        let levels = self.levels.min(segments.len());
        let not_upright = levels.saturating_add(self.slanted).min(segments.len());
        (&segments[..not_upright], &segments[levels..])
    }

    /// Returns the slanted segment in the middle of such a list, or `None` where there is none.
    pub fn middle_slanted(self, segments: &[Segment]) -> Option<&Segment> {
        if self.slanted == 0 {
            return None;
        }
        segments.get(self.levels.saturating_add(self.slanted / 2))
    }
}
