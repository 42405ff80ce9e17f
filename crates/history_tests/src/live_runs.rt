//! Tests of what no clause says: that a run succeeds, what it writes byte for byte, and devices that fail.

use band_workers::OneBand;
use byte_io::{Failing, MemoryIn, MemoryOut};
use live_run::*;
use std::alloc::Global;
use std::test::*;
use std::thread::Threads;

const RUN: &[u8] =
    b"%cif\nL NM; B 40 20 0 0; E\n%live\n1 open\n1 box top NP 0 0 10 10\n\n2 what\n1 commit\n%write\n2 undo 1.1";

const ANSWERS: &[u8] =
    b"(1 1 opened 1);\n(1 2 made 1.1.1);\n(fault line 4);\n(1 3 committed);\nDS 1 1 2;\nL NM;\nP -40 -20 40 -20 40 20 -40 20;\nL NP;\nP 0 0 10 0 10 10 0 10;\nDF;\nC 1;\nE\n";

const CLOSING: &[u8] =
    b"(2 1 undone);\n(order 1 1 1 2);\nDS 1 1 2;\nL NM;\nP -40 -20 40 -20 40 20 -40 20;\nDF;\nC 1;\nE\n";

const PLAIN: Showing = Showing {
    named: false,
    oriented: false,
};

/// How the run of these lines ends and what it writes, where the input gives so many bytes a read and answers so many reads, and
/// the output takes so many bytes.
fn ended(
    rt: &(impl Threads + Sync),
    alloc: Global,
    lines: &[u8],
    bite: usize,
    reads: usize,
    room: usize,
) -> (LiveEnd, MemoryOut) {
    let mut input = MemoryIn::new(lines, bite, reads);
    let mut out = MemoryOut::new(alloc, 7, room, Failing::ByErr);
    let end = run_live(rt, alloc, &OneBand, PLAIN, &mut input, &mut out);
    (end, out)
}

// Could catch a run that gives up, answers that aren't those of the formats, and an answer that depends on the pieces in which
// the input comes.
#[test]
fn each_line_is_answered(rt: HostRuntime) -> Result<(), Fail> {
    let mut want = Vec::new(rt.alloc());
    want.extend_from_slice(ANSWERS)?;
    want.extend_from_slice(CLOSING)?;
    for bite in [1, 7, 16_384] {
        let (end, out) = ended(&rt, rt.alloc(), RUN, bite, 1000, 1000);
        assert!(rt;
            matches!(
                end,
                LiveEnd::Done {
                    has_refused: false,
                    ..
                }
            ),
            "{bite}"
        );
        assert_eq!(rt; out.written(), want.as_slice(), "{bite}");
    }
    Ok(())
}

// Could catch a contract that no device meets, and a failure that is taken for something else: of the input behind the last
// whole line, and of the output in an answer.
#[test]
fn a_device_that_fails_ends_the_run(rt: HostRuntime) {
    let (end, out) = ended(&rt, rt.alloc(), RUN, 1, RUN.len() - 3, 1000);
    assert!(rt; matches!(end, LiveEnd::Device));
    assert_eq!(rt; out.written(), ANSWERS);
    let (end, out) = ended(&rt, rt.alloc(), RUN, 16_384, 1000, 20);
    assert!(rt; matches!(end, LiveEnd::Device));
    assert_eq!(rt; out.written(), &ANSWERS[..20]);
}

// Could catch a fault at another place than a person counts it.
#[test]
fn a_head_with_a_fault_is_told(rt: HostRuntime) {
    let rows: [(&[u8], u32, &[u8]); 4] = [
        (b"", 1, b""),
        (b"%cif\nE\n", 3, b"%cif\nE\n"),
        (b"\nE\n%live\n", 2, b"\nE\n"),
        (
            b"%cif\nE\n%session 1\nopen\n%live\n1 open\n",
            5,
            b"%cif\nE\n%session 1\nopen\n",
        ),
    ];
    for (lines, want, head) in rows {
        let (end, out) = ended(&rt, rt.alloc(), lines, 3, 1000, 1000);
        assert!(rt;
            matches!(&end, LiveEnd::Job { line, text } if *line == want && text.as_slice() == head),
            "{end:?}"
        );
        assert!(rt; out.written().is_empty(), "{want}");
    }
    let (end, _) = ended(&rt, rt.alloc(), b"%cif\nW 1;\n%live\n", 3, 1000, 1000);
    assert!(rt;
        matches!(&end, LiveEnd::Cif { fault, .. } if fault.offset == 0),
        "{end:?}"
    );
}

// Could catch names of another text or of none, a symbol named by a label, one that isn't written and keeps its name, and names
// left out that aren't counted.
#[test]
fn symbols_have_the_names_of_the_head(rt: HostRuntime) {
    let alloc = rt.alloc();
    let lines: &[u8] =
        b"%cif\nDS 1; 94 IN 0 0; 9 INV; 9 OTHER; L NM; B 40 20 0 0; DF; DS 2; 9 GONE; DF; 91 i_0; C 1; E\n%live\n1 open\n1 rmcell 2\n1 commit\n%cells\n%write\n";
    let mut input = MemoryIn::new(lines, 5, 1000);
    let mut out = MemoryOut::new(alloc, 7, 1000, Failing::ByErr);
    let showing = Showing {
        named: true,
        oriented: true,
    };
    let end = run_live(&rt, alloc, &OneBand, showing, &mut input, &mut out);
    assert!(rt;
        matches!(&end, LiveEnd::Done { notes, .. } if notes.left_out == 1 && notes.staying == 0),
        "{end:?}"
    );
    let want: &[u8] =
        b"(1 1 opened 1);\n(1 2 done);\n(1 3 committed);\n(cell top 1);\n(cell 1 1 INV);\n(end);\nDS 1 1 2;\n94 IN 0 0;\n9 INV;\n9 OTHER;\nL NM;\nP -40 -20 40 -20 40 20 -40 20;\nDF;\nC 1;\nE\n(order 1 1 1);\nDS 1 1 2;\n94 IN 0 0;\n9 INV;\n9 OTHER;\nL NM;\nP -40 -20 40 -20 40 20 -40 20;\nDF;\nC 1;\nE\n";
    assert_eq!(rt; out.written(), want);
}

// Could catch a run that begins anew from a journal, answers its steps, loses the names of its transactions, or takes a line that was
// cut for a whole one; and a refused step that is forgotten.
#[test]
fn a_run_begins_behind_its_journal(rt: HostRuntime) -> Result<(), Fail> {
    let alloc = rt.alloc();
    let mut bytes = Vec::new(alloc);
    bytes.extend_from_slice(
        b"%cif\nL NM; B 40 20 0 0; E\n%live\n1 open\n1 box top NP 0 0 10 10\n1 commit\n1 op",
    )?;
    let mut input = MemoryIn::new(b"2 undo 1.1\n1 redo 2.1\n", 5, 1000);
    let mut out = MemoryOut::new(alloc, 7, 1000, Failing::ByErr);
    let end = run_journaled(
        &rt,
        alloc,
        &OneBand,
        PLAIN,
        bytes,
        &mut input,
        &mut out,
        &mut NoJournal,
    );
    assert!(rt;
        matches!(
            end,
            LiveEnd::Done {
                has_refused: true,
                ..
            }
        )
    );
    let want: &[u8] =
        b"(2 1 undone);\n(1 4 fault 20 NoTxn);\n(order 1 1 1 2 1);\nDS 1 1 2;\nL NM;\nP -40 -20 40 -20 40 20 -40 20;\nDF;\nC 1;\nE\n";
    assert_eq!(rt; out.written(), want);
    Ok(())
}
