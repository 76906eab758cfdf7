/// How many conflicts the shortest run takes.
const UNIT: u64 = 32;

/// When to begin again from no decision: after runs of conflicts whose lengths are those of Luby's series, 1, 1, 2, 1, 1,
/// 2, 4, .., times a unit.
#[derive(Clone, Copy)]
pub(crate) struct Pace {
    /// How many runs of a length that doubles were completed, and one more.
    step: u64,
    /// The length of this run.
    length: u64,
    /// How many of its conflicts are left.
    left: u64,
}

impl Pace {
    pub(crate) fn new() -> Pace {
        Pace {
            step: 1,
            length: 1,
            left: UNIT,
        }
    }

    /// Counts a conflict. Whether it ends a run. (Each run is twice as long as the one before, until it is as long as the
    /// greatest power of two that divides the step.)
    pub(crate) fn is_over(&mut self) -> bool {
        if self.left > 1 {
            self.left -= 1;
            return false;
        }
        if self.step & self.step.wrapping_neg() == self.length {
            self.step = self.step.saturating_add(1);
            self.length = 1;
        } else {
            self.length = self.length.saturating_mul(2);
        }
        self.left = self.length.saturating_mul(UNIT);
        true
    }
}
