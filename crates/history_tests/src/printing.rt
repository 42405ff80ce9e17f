//! Tests of what no clause says: that replies and order are printed where there is memory.

use byte_io::{Failing, MemoryOut};
use job_text::print;
use lay_point::Sequence;
use session_steps::Reply;
use std::test::*;
use txn_commands::TxnId;

// Could catch a printing that always gives up.
#[test]
fn replies_and_order_are_printed(rt: HostRuntime) -> Result<(), Fail> {
    let alloc = rt.alloc();
    let mut replies = Vec::new(alloc);
    replies.push(Reply::Opened(1))?;
    replies.push(Reply::Committed(TxnId { session: 1, txn: 1 }))?;
    let mut sessions = Vec::new(alloc);
    sessions.push(Sequence::from_vec(replies))?;
    let mut out = MemoryOut::new(alloc, 7, 1000, Failing::ByErr);
    let printed = print(alloc, &mut out, &sessions, &[1, 1]);
    assert!(rt; printed.is_ok());
    let want: &[u8] = b"(1 1 opened 1);\n(1 2 committed);\n(order 1 1);\n";
    assert_eq!(rt; out.written(), want);
    Ok(())
}
