//! Tests of devices that fail. Whole jobs are files of tests/jobs, which tests/program runs.

use super::*;
use band_workers::OneBand;
use byte_io::{Failing, InFault, MemoryIn, MemoryOut, ReadCounts};
use cif_layout::FromCif;
use cif_read::read;
use cif_write::write;
use lay_cells::CellId;
use lay_items::Snapshot;
use lay_point::{LayerName, Point};
use session_core::Machine;
use session_steps::Step;
use std::test::*;
use txn_commands::{Command, TxnId};

const UNDONE_BOX: &[u8] =
    b"%cif\nL NM; B 40 20 0 0; E\n%session 1\nopen\nbox top NP 0 0 10 10\ncommit\nundo 1.1\n";

const UNDONE_BOX_OUTPUT: &[u8] =
    b"(1 1 opened 1);\n(1 2 made 1.1.1);\n(1 3 committed);\n(1 4 undone);\n(order 1 1 1 1);\nDS 1 1 2;\nL NM;\nP -40 -20 40 -20 40 20 -40 20;\nDF;\nC 1;\nE\n";

/// A device that gives one blank in each read, for ever.
#[derive(Drop)]
struct Endless {
    counts: ReadCounts,
}

impl In for Endless {
    ghost use Rattle.std.specs.Prelude.{None};
    ghost use Rattle.byte_io.specs.Input.{counts_of};

    ghost remaining = { λ d. None };

    ghost counts = { λ d. counts_of d.counts };

    fn take(&mut self, buffer: &mut [u8]) -> Result<usize, InFault> {
        let mut answer = Ok(0);
        if let Some(first) = buffer.first_mut() {
            *first = b' ';
            answer = Ok(1);
        }
        self.counts.count(buffer, &answer);
        answer
    }
}

/// How the program ends on this input and what it writes, where the output takes so many bytes.
fn ended_on<I: In>(
    rt: &(impl Threads + Sync),
    alloc: Global,
    input: &mut I,
    room: usize,
) -> (Status, MemoryOut) {
    let mut out = MemoryOut::new(alloc, 1000, room, Failing::ByErr);
    let mut errors = MemoryOut::new(alloc, 1000, 1000, Failing::ByErr);
    let status = run_in_turn(rt, alloc, Options::plain(), input, &mut out, &mut errors);
    (status, out)
}

/// The same, where the input is the job, and answers so many reads.
fn ended(
    rt: &(impl Threads + Sync),
    alloc: Global,
    job: &[u8],
    reads: usize,
    room: usize,
) -> (Status, MemoryOut) {
    ended_on(rt, alloc, &mut MemoryIn::new(job, 5, reads), room)
}

// Could catch bytes that are lost or taken twice where a read ends: the definition of the output has no reads.
#[test]
fn a_job_that_comes_byte_by_byte_is_run(rt: HostRuntime) {
    let mut input = MemoryIn::new(UNDONE_BOX, 1, 1000);
    let (status, out) = ended_on(&rt, rt.alloc(), &mut input, 1000);
    assert_eq!(rt; status, Status::Done);
    assert_eq!(rt; out.written(), UNDONE_BOX_OUTPUT);
}

// Could catch an input that never ends and is read for ever, or kept whole: how long a read takes is in no clause.
#[test]
fn an_endless_input_is_given_up(rt: HostRuntime) {
    let mut input = Endless {
        counts: ReadCounts::new(),
    };
    let (status, out) = ended_on(&rt, rt.alloc(), &mut input, 1000);
    assert_eq!(rt; status, Status::Device);
    assert!(rt; out.written().is_empty());
}

// Could catch a contract that no device meets, and a failure of a device that is taken for something else: in the middle
// of the input, and of a fault's line.
#[test]
fn ends_with_status_5_where_a_device_fails(rt: HostRuntime) {
    let rows: [(&[u8], usize, usize, &[u8]); 4] = [
        (UNDONE_BOX, 3, 1000, b""),
        (b"%cif\nL NM; B 40 20 0 0; E", 1000, 10, b"DS 1 1 2;\n"),
        (b"%cif\n", 1000, 3, b"cif"),
        (b"", 1000, 0, b""),
    ];
    for (job, reads, room, want) in rows {
        let (status, out) = ended(&rt, rt.alloc(), job, reads, room);
        assert_eq!(rt; status, Status::Device, "{want:?}");
        assert_eq!(rt; out.written(), want);
    }
}

// Could catch bytes that are written in another order or twice, and a failure that is passed over, at any byte.
#[test]
fn a_full_device_holds_a_prefix_of_the_output(rt: HostRuntime) {
    for room in 0..UNDONE_BOX_OUTPUT.len() {
        let (status, out) = ended(&rt, rt.alloc(), UNDONE_BOX, 1000, room);
        assert_eq!(rt; status, Status::Device, "{room}");
        assert_eq!(rt; out.written(), &UNDONE_BOX_OUTPUT[..room], "{room}");
    }
}

// Could catch statuses in the definition that aren't those of the program's formats.
#[test]
fn statuses_have_their_numbers(rt: HostRuntime) {
    let rows = [
        (Status::Done, 0),
        (Status::CommandLine, 2),
        (Status::Job, 3),
        (Status::Cif, 4),
        (Status::Device, 5),
        (Status::Memory, 6),
        (Status::Desk, 7),
    ];
    for (status, code) in rows {
        assert_eq!(rt; status.code(), code);
    }
}

// Could catch crates that can't be used together as the README shows; this is its example.
#[test]
fn the_library_reads_edits_and_writes(rt: HostRuntime) -> Result<(), Fail> {
    let alloc = rt.alloc();
    let base = Snapshot::from_cif(alloc, read(alloc, b"L NM; B 40 20 0 0; E")?)?;
    let mut machine = Machine::new(alloc, base, 1)?;
    let layer = LayerName::new(b"NP").ok_or("no layer name")?;
    let (a, b) = (Point { x: 0, y: 0 }, Point { x: 10, y: 10 });
    let cell = CellId::Top;
    machine.step(&rt, alloc, 1, Step::Open, &OneBand);
    machine.step(
        &rt,
        alloc,
        1,
        Step::Do(Command::Box { cell, layer, a, b }),
        &OneBand,
    );
    machine.step(&rt, alloc, 1, Step::Commit, &OneBand);
    machine.step(
        &rt,
        alloc,
        1,
        Step::Undo(TxnId { session: 1, txn: 1 }),
        &OneBand,
    );
    let mut out = MemoryOut::new(alloc, 4096, 4096, Failing::ByErr);
    write(alloc, machine.book().snapshot(), &mut out)?;
    let want: &[u8] = b"DS 1 1 2;\nL NM;\nP -40 -20 40 -20 40 20 -40 20;\nDF;\nC 1;\nE\n";
    assert_eq!(rt; out.written(), want);
    Ok(())
}
