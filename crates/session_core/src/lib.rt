//! The core: sessions that take steps, one after another, on one book.
//!
//! A step of a session is refused by the [`Machine`], where there is no such session or it has a
//! transaction open, or none; else it is a command of the open transaction, ends it, or is a call
//! of the book. A reply may say that memory ran out ([`is_memory`]).
//!
//! # Model and invariants
//!
//! - `Machine` is kept as a book, and a list of the sessions' works. Contracts see the record
//!   `State` of `specs/Machine.antt`, which says what each step answers and leaves, and what a list
//!   of steps does.
//! - It has at most `MAX_SESSIONS` sessions, and each open transaction is the one that the book keeps for its
//!   session (`IsState` of `specs/Machines.antt`), so a commit is never refused as foreign.
//!
//! # Example
//!
//! The test `examples::a_session_takes_steps` of `history_tests` runs this.
//!
//! ```text
//! let steps = vec![in alloc; (1, Step::Open), (1, Step::Do(command)), (1, Step::Commit)]?;
//! let (machine, replies) = Machine::run(&rt, alloc, base, 1, steps, &OneBand)?;
//! let layout = machine.book().snapshot();
//! ```
#![tactic(auto)]

mod machine;
mod memory;

pub use machine::Machine;
pub use memory::is_memory;
