//! The printing of replies and order.
ghost use Rattle.std.specs.Prelude.{◌≡◌, ◌↔◌, ◌+◌, ◌++◌, IfOk, IsErrOf, OnErr, OnOk};
ghost use Rattle.byte_io.specs.Device.{WroteAll, WrotePrefix};
ghost use Rattle.job_text.specs.Order.{order_text};
ghost use Rattle.job_text.specs.Replies.{replies_text};

use crate::order::put_order;
use crate::reply_text::put_replies;
use crate::text_out::TextOut;
use byte_io::{Out, OutBuffer, OutFault};
use cif_write::WriteFault;
use lay_point::{NoMemory, Sequence};
use session_steps::Reply;
use std::alloc::Global;

/// Writes the replies to the steps of the sessions, session by session, and the order, as comments. At `Device` a
/// prefix of the comments was written. The allocator has no use.
///
/// # Errors
///
/// `Device` at the first failure of the device; a prefix of the comments was written then.
///
/// # Cost
///
/// A pass over the replies and the order.
pub fn print<O: Out>(
    _alloc: Global,
    out: &mut O,
    replies: &[Sequence<Reply>],
    order: &[u8],
) -> Result<(), WriteFault>
    ensures ok { OnOk result
        (WroteAll O.written O.failures out.old out.new
        (replies_text replies.now ++ order_text order.now)) }
    ensures device { IsErrOf result WriteFault.Device
        → WrotePrefix O.written O.failures out.old out.new
        (replies_text replies.now ++ order_text order.now) }
    ensures failed { IsErrOf result WriteFault.Device
        ↔ (O.failures out.new ≡ O.failures out.old + 1) }
    ensures no_memory { IsErrOf result WriteFault.NoMemory → out.new ≡ out.old }
{
    Ok(put_comments(out, replies, order)?)
}

/// Writes the lines of the replies to the steps of the sessions, session by session, and those of the order, piece by
/// piece. It takes no memory.
///
/// # Errors
///
/// `OutFault` at the first failure of the device; a prefix of the comments was written then.
///
/// # Cost
///
/// A pass over the replies and the order.
pub fn put_comments<O: Out>(
    out: &mut O,
    replies: &[Sequence<Reply>],
    order: &[u8],
) -> Result<(), OutFault>
    ensures ok { OnOk result
        (WroteAll O.written O.failures out.old out.new
        (replies_text replies.now ++ order_text order.now)) }
    ensures fault { OnErr result
        (WrotePrefix O.written O.failures out.old out.new
        (replies_text replies.now ++ order_text order.now)) }
{
    let mut buffer = OutBuffer::new();
    put_replies(out, &mut buffer, replies);
    put_order(out, &mut buffer, order);
    buffer.flush(out)
}

/// Returns the lines of the replies to the steps of the sessions, session by session, and those of the order.
///
/// # Errors
///
/// `NoMemory`, if an allocation fails.
///
/// # Cost
///
/// A pass over the replies and the order.
pub fn comments(
    alloc: Global,
    replies: &[Sequence<Reply>],
    order: &[u8],
) -> Result<Vec<u8>, NoMemory>
    ensures { IfOk result (λ bytes. bytes.items ≡ replies_text replies.now ++ order_text order.now) }
{
    let mut out = TextOut::new(alloc);
    put_comments(&mut out, replies, order).map_err(|_| NoMemory)?;
    Ok(out.into_bytes())
}
