//! Laws of commands: what they read, what they leave alone, and why their records can be applied
//! and reverted.
//!
//! What a command does is `effect` of `txn_commands/specs/Effects.antt`, and what a transaction
//! wrote is read off the layouts before and after it (`txn_commands/specs/Records.antt`). The laws
//! are stated in `txn_commands/specs/Laws.antt`. Nothing of this runs: functions with an empty body
//! carry them.
//!
//! - [`commands_have_laws`]: a command does the same on all sound layouts in which what it touches
//!   is the same, and touches what it writes.
//! - [`runs_have_laws`]: commands that are all accepted leave alone what they don't touch, keep a
//!   layout sound, make items of their own, and go alike on all sound layouts in which what they
//!   touch is the same.
//! - [`records_have_laws`]: the records between layouts lead from the one to the other and back,
//!   and between sound layouts go past commands that touch nothing of them. So they can be applied
//!   and reverted next to those of other transactions.
#![tactic(auto)]

mod laws;

pub use laws::{commands_have_laws, records_have_laws, runs_have_laws};
