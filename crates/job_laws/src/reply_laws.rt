//! What holds of every reply and of every order, and of their lines, as calls that do nothing.
ghost use Rattle.job_laws.specs.ReplyLaws.{LinesTellReplies, OrdersAreRead, OrdersAreTold};

/// The line of a reply tells the session, the step and the reply, for each reply whose numbers a line can
/// have. Only which transaction was committed isn't on it.
pub fn lines_tell_replies()
    ensures { LinesTellReplies }
{}

/// The numbers in the lines of an order are the order. So orders of the same lines are the same.
pub fn lines_tell_the_order()
    ensures read { OrdersAreRead }
    ensures told { OrdersAreTold }
{}
