//! How many shapes of each input hold.
ghost use Rattle.std.specs.Prelude.{◌≡◌, ℕ, ◌<◌, ◌≤◌, ◌+◌, ◌-◌, ◌^◌, Bool, Contains, IfOk, IsTrue, List, true, false, if◌then◌else◌};
ghost use Rattle.lay_point.specs.Parity.{xor};
ghost use Rattle.snap_chains.specs.declared.owner.Owner.{Owner};
ghost use Rattle.snap_chains.specs.Owners.{owner_eq};
ghost use Rattle.face_rows.specs.Labels.{answer_on};
ghost use Rattle.face_sweep.specs.Counts.{AreCounts, CountOwner, CountShape, kept_counts, nth_shape};
ghost use Rattle.face_rows.specs.Operations.{answer};

use face_rows::Op;
use snap_chains::{Input, Owner};
use std::alloc::AllocError;

/// How many shapes of each input hold.
#[derive(Clone, Copy, Debug)]
pub struct Counts {
    pub(crate) first: u64,
    pub(crate) second: u64,
}

/// How many shapes of each input hold left of an edge, in the form in which a row keeps it.
#[derive(Clone, Copy, Debug)]
pub struct LeftCounts {
    first: u32,
    second: u32,
}

impl LeftCounts {
    /// Returns the counts in the form of a row.
    ///
    /// # Errors
    ///
    /// `AllocError`, if 2^32 shapes of an input hold.
    pub fn of(counts: Counts) -> Result<LeftCounts, AllocError>
        ensures { IfOk result (λ left. kept_counts left ≡ counts) }
    {
        if counts.first > u64::from(u32::MAX) || counts.second > u64::from(u32::MAX) {
            return Err(AllocError);
        }
        Ok(LeftCounts {
            first: counts.first as u32,
            second: counts.second as u32,
        })
    }

    /// Returns the counts.
    pub(crate) fn counts(self) -> Counts
        ensures { result ≡ kept_counts self }
    {
        Counts {
            first: u64::from(self.first),
            second: u64::from(self.second),
        }
    }
}

impl Counts {
    /// No shape holds.
    pub fn none() -> Counts
        ensures { AreCounts result (λ o. false) }
    {
        Counts {
            first: 0,
            second: 0,
        }
    }

    /// Returns the counts where this shape is turned in or out, which holds if it is inside.
    pub fn turned(self, owner: Owner, inside: bool) -> Counts
        requires { CountOwner self owner inside }
        ensures { (holds : Owner → Bool) → AreCounts self holds → holds owner ≡ inside
            → AreCounts result (λ o. xor (owner_eq owner o) (holds o)) }
    {
        self.turned_in(owner.input, inside)
    }

    /// Returns the counts where a shape of the input is turned in or out, which holds if it is inside.
    pub fn turned_in(self, input: Input, inside: bool) -> Counts
        requires { CountShape self input inside }
        ensures { (shape : ℕ) (holds : Owner → Bool) → shape < 2 ^ 32 → AreCounts self holds → holds (nth_shape input shape) ≡ inside
            → AreCounts result (λ o. xor (owner_eq (nth_shape input shape) o) (holds o)) }
    {
        match input {
            Input::First => Counts {
                first: turned_count(self.first, inside),
                second: self.second,
            },
            Input::Second => Counts {
                first: self.first,
                second: turned_count(self.second, inside),
            },
        }
    }

    /// Returns the operation's answer.
    pub fn answer(self, op: Op) -> bool
        ensures { (holds : Owner → Bool) (shapes : List Owner) → AreCounts self holds
            → ((o : Owner) → IsTrue (holds o) → Contains shapes o) → result ≡ answer_on (answer op) shapes holds }
    {
        op.answer(self.first > 0, self.second > 0)
    }
}

/// Returns the count with one shape less, which is inside, or one more.
fn turned_count(count: u64, inside: bool) -> u64
    requires some { inside ≡ true → 0 < count }
    requires few { count ≤ 2 ^ 32 }
    ensures { result ≡ (if inside then count - 1 else count + 1) }
{
    if inside { count - 1 } else { count + 1 }
}
