//! The way to what is behind a desk's lock.

use crate::desk::Desk;
use crate::guarded::Guarded;
use std::sync::ledger::Ledger;
use std::sync::{MutexGuard, Wait};
use std::thread::yield_now;

/// How often the lock is looked at before a thread sleeps.
const LOOKS: u32 = 200;

impl<L: Ledger> Desk<L> {
    /// Returns what is behind the lock, once no other thread has it. A call holds the lock for some microseconds, and
    /// a thread that sleeps takes longer to wake, so the lock is looked at for a while first. Between two looks other
    /// threads may run.
    pub(crate) fn entered<R: Wait>(&self, rt: &R) -> MutexGuard<'_, Guarded<L>> {
        for _ in 0..LOOKS {
            if let Some(guard) = self.lock.try_lock() {
                return guard;
            }
            yield_now();
        }
        self.lock.lock(rt)
    }
}
