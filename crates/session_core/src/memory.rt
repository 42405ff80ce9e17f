//! Replies that say that memory ran out.
ghost use Rattle.std.specs.Prelude.{◌≡◌};
ghost use Rattle.session_core.specs.Machine.{is_memory};

use session_steps::{Reply, StepFault};
use txn_commands::CmdFault;
use undo_rules::BookFault;

/// Returns whether a step with this reply was out of memory.
pub fn is_memory(reply: &Reply) -> bool
    ensures { result ≡ is_memory reply.now }
{
    match reply {
        Reply::Fault(StepFault::Command(fault)) => *fault == CmdFault::NoMemory,
        Reply::Fault(StepFault::Book(fault)) => *fault == BookFault::NoMemory,
        _ => false,
    }
}
