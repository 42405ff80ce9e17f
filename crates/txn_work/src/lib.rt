//! Transactions as they run: commands on a snapshot of the layout.
//!
//! A [`Work`] is a transaction on a snapshot. A command is refused, and then changes nothing, or is
//! accepted: the work then sees the layout that it leaves, and has one more command, what it wrote
//! in all, merged, and what it read or wrote in its footprint. The snapshot itself stays as it is.
//!
//! A command is first planned on the layout as the transaction sees it (`plan` of `txn_plans`, an
//! act or the refusal), which changes nothing; then the act is performed. What commands do is
//! `effect` of `txn_commands/specs/Effects.antt`.
//!
//! # Model and invariants
//!
//! - `Work` is kept as its parts, the layout that it sees, once a command needed that whole, the
//!   last command that was refused after much of the layout was gone over, with its refusal, and
//!   what a history keeps of it, once [`Work::prepare`] has made that.
//!   Contracts see the record `Transaction` of `txn_commands/specs/Transactions.antt`.
//! - Its writes and its footprint are those of its commands, run on its snapshot, which is sound;
//!   the layout that it keeps is the one that they lead to; the command whose refusal it keeps
//!   would be refused so again; and what a history keeps of it is of these writes and this footprint
//!   (`IsWork` of `specs/Works.antt`).
//!
//! ```text
//! let mut work = Work::new(alloc, snapshot, TxnId { session: 1, txn: 1 }, 0);
//! let command = Command::Box { cell: CellId::Top, layer, a, b };
//! assert_eq!(work.run(rt, alloc, command, &OneBand), Ok(Done::Made(id)));
//! ```
#![tactic(auto)]

mod ending;
mod marking;
mod work;

pub use ending::Spent;
pub use work::Work;
