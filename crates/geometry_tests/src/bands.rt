//! Tests of what no clause says: that calls succeed, and that the labels are those of an operation.

use crate::drawn::{at, owned, two_squares};
use band_workers::*;
use face_rows::Op;
use lay_point::Ring;
use snap_chains::{Input, round};
use std::alloc::AllocError;
use std::sync::atomic::{AtomicBool, Ordering};
use std::test::*;

// Could catch labels that are all false, or of a wrong operation, and a worker that always runs out
// of memory: of the AND of two squares that overlap the edges are the four round what they share.
#[test]
fn labels_what_two_squares_share(rt: HostRuntime) -> Result<(), Fail> {
    let clean = two_squares(&rt, rt.alloc())?;
    let labels = OneBand.label_all(&rt, rt.alloc(), &clean, Op::And)?;
    let mut numbers: Vec<usize> = Vec::new(rt.alloc());
    for number in 0..labels.len() {
        if labels[number] {
            numbers.push(number)?;
        }
    }
    assert_eq!(rt; labels.len(), 12);
    assert_eq!(rt; numbers.as_slice(), [3, 4, 6, 9].as_slice());
    Ok(())
}

// Could catch workers that all label one band, a list that is lost or put at other numbers, and a worker that is out of memory.
#[test]
fn any_number_of_workers_gives_the_same_labels(rt: HostRuntime) -> Result<(), Fail> {
    let clean = two_squares(&rt, rt.alloc())?;
    let alone = OneBand.label_all(&rt, rt.alloc(), &clean, Op::Xor)?;
    for workers in [1, 2, 3, 4, 64] {
        let labels = ScopedBands::new(workers).label_all(&rt, rt.alloc(), &clean, Op::Xor)?;
        assert_eq!(rt; labels.as_slice(), alone.as_slice(), "{workers} workers");
    }
    Ok(())
}

/// Two workers that wait for each other, for so many turns at most.
#[derive(Drop)]
struct Meeting {
    first: AtomicBool,
    second: AtomicBool,
    missed: AtomicBool,
}

impl Gate for Meeting {
    fn pass(&self, band: usize) {
        let (own, other) = if band == 0 {
            (&self.first, &self.second)
        } else {
            (&self.second, &self.first)
        };
        own.store(true, Ordering::SeqCst);
        for _ in 0..50_000_000 {
            if other.load(Ordering::SeqCst) {
                return;
            }
        }
        self.missed.store(true, Ordering::SeqCst);
    }
}

// Could catch bands that are labelled one after the other, and a worker that passes no gate, which no clause forbids: each of
// two workers comes to the gate, and waits there until the other has come too.
#[test]
fn two_bands_are_labelled_at_once(rt: HostRuntime) -> Result<(), Fail> {
    let ring = Ring::rectangle(rt.alloc(), at(0, 0), at(20, 20));
    let clean = round(&rt, rt.alloc(), &[owned(Input::First, ring.points())])?;
    let gate = Meeting {
        first: AtomicBool::new(false),
        second: AtomicBool::new(false),
        missed: AtomicBool::new(false),
    };
    let labels = label_in_bands(&rt, rt.alloc(), &clean, 2, &gate, Op::Or)?;
    assert_eq!(rt; labels.len(), 4);
    assert!(rt; gate.first.load(Ordering::SeqCst) && gate.second.load(Ordering::SeqCst));
    assert!(rt; !gate.missed.load(Ordering::SeqCst));
    Ok(())
}
