//! What a command is going to do, found on the layout as its transaction sees it.
//!
//! [`LayoutView`] is that layout: a snapshot under the writes so far. [`plan`] answers an [`Act`] or the refusal, as
//! `plan` of `txn_commands/specs/Plans.antt` has it, and changes nothing. An act has the answer, the elements
//! that are touched, what is written, and how many items are made (`specs/Acting.antt`). Each kind of command
//! has its file: `shapes.rt`, `changes.rt`, `calls.rt`, `cells.rt`, `booleans.rt`.
//!
//! `txn_work` performs acts.
#![tactic(auto)]

mod act;
mod booleans;
mod calls;
mod cells;
mod changes;
mod layout_view;
mod planning;
mod shapes;

pub use act::{Act, Written};
pub use layout_view::LayoutView;
pub use planning::plan;
