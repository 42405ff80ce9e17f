//! A buffer in front of a device, so that the device takes many small pieces at once.
//!
//! A text is put in pieces of a few bytes, some of a known length, so `put` and `hold` are inlined.
ghost use Rattle.std.specs.Prelude.{◌≡◌, ◌∷◌, [], OnErr, OnOk, decimal, if◌then◌else◌, is_none};
ghost use Rattle.std.specs.Fmt.{signed_decimal};
ghost use Rattle.byte_io.specs.Buffered.{Buffered, held_with};
ghost use Rattle.byte_io.specs.Decimal.{spaced_pair};

use crate::decimal::{PAIR_LEN, write_spaced};
use crate::device::{Out, OutFault, put_all};
use arrayvec::ArrayVec;
use itoa::Buffer;
use std::marker::Model;

/// How many bytes a buffer holds.
const CAPACITY: usize = 16_384;

/// Bytes on their way to a device. The device takes them once they fill the buffer, and at `flush`.
/// The buffer lies in the value itself and takes no memory.
///
/// Contracts see the bytes that are held back, or `None` once the device has failed. From then on
/// the device isn't asked again: what is put is dropped, and `flush` reports the failure.
#[derive(Drop)]
pub struct OutBuffer {
    held: ArrayVec<u8, CAPACITY>,
    failed: bool,
}

impl Model for OutBuffer {
    ghost use Rattle.std.specs.Prelude.{ℕ, List, Option, None, Some, if◌then◌else◌};

    ghost Value = { Option (List ℕ) };

    ghost view = { λ b. if b.failed then None else Some b.held.items };
}

impl OutBuffer {
    /// Returns a buffer that holds nothing.
    pub fn new() -> OutBuffer
        ensures { result ≡ Some [] }
    {
        OutBuffer {
            held: ArrayVec::new(),
            failed: false,
        }
    }

    /// Returns whether the device has failed.
    pub fn has_failed(&self) -> bool
        ensures { result ≡ is_none self.now }
    {
        self.failed
    }

    // Inlined, so that a few bytes whose number is known there are put without a call.
    /// Puts the bytes behind those that are held back.
    #[inline(always)]
    pub fn put<O: Out>(&mut self, out: &mut O, bytes: &[u8])
        ensures { Buffered O.written O.failures out.old self.old out.new self.new bytes.now }
    {
        if !self.hold(bytes) {
            self.put_full(out, bytes);
        }
    }

    /// Puts a byte behind those that are held back.
    pub fn put_byte<O: Out>(&mut self, out: &mut O, byte: u8)
        ensures { Buffered O.written O.failures out.old self.old out.new self.new (byte ∷ []) }
    {
        if !self.hold_byte(byte) {
            self.put_full(out, &[byte]);
        }
    }

    /// Puts the number's digits, without leading zeros.
    pub fn put_unsigned<O: Out>(&mut self, out: &mut O, number: u64)
        ensures { Buffered O.written O.failures out.old self.old out.new self.new (decimal number) }
    {
        let mut digits = Buffer::new();
        self.put(out, digits.format(number).as_bytes());
    }

    /// Puts the integer's digits, without leading zeros, after a minus sign where it is negative.
    pub fn put_signed<O: Out>(&mut self, out: &mut O, integer: i32)
        ensures { Buffered O.written O.failures out.old self.old out.new self.new
            (signed_decimal integer) }
    {
        let mut digits = Buffer::new();
        self.put(out, digits.format(integer).as_bytes());
    }

    /// Puts two integers' digits, a space before each, and after it a minus sign where one is negative. They are put as
    /// one piece: most of the time of a few bytes goes with the number of pieces.
    pub fn put_pair<O: Out>(&mut self, out: &mut O, first: i32, second: i32)
        ensures { Buffered O.written O.failures out.old self.old out.new self.new
            (spaced_pair first second) }
    {
        let mut text = [0; PAIR_LEN];
        let behind = write_spaced(&mut text, PAIR_LEN, second);
        let start = write_spaced(&mut text, behind, first);
        self.put(out, &text[start..]);
    }

    /// Writes to the device what is held back.
    ///
    /// # Errors
    ///
    /// `OutFault`, if the device fails now, or failed at an earlier piece.
    pub fn flush<O: Out>(&mut self, out: &mut O) -> Result<(), OutFault>
        ensures put { Buffered O.written O.failures out.old self.old out.new self.new [] }
        ensures ok { OnOk result (self.new ≡ Some []) }
        ensures err { OnErr result (self.new ≡ None) }
    {
        if self.failed {
            return Err(OutFault);
        }
        if put_all(out, self.held.as_slice()).is_err() {
            self.failed = true;
            return Err(OutFault);
        }
        self.held.clear();
        Ok(())
    }

    /// Puts the bytes, for which there is no room before a flush.
    fn put_full<O: Out>(&mut self, out: &mut O, bytes: &[u8])
        ensures { Buffered O.written O.failures out.old self.old out.new self.new bytes.now }
    {
        if self.flush(out).is_ok() && !self.hold(bytes) {
            self.failed = put_all(out, bytes).is_err();
        }
    }

    /// Holds the bytes back where there is room for them, and returns whether there was.
    #[inline(always)]
    fn hold(&mut self, bytes: &[u8]) -> bool
        ensures { self.new ≡ (if result then held_with self.old bytes.now else self.old) }
    {
        self.held.try_extend_from_slice(bytes).is_ok()
    }

    /// Holds the byte back where there is room for it, and returns whether there was.
    fn hold_byte(&mut self, byte: u8) -> bool
        ensures { self.new ≡ (if result then held_with self.old (byte ∷ []) else self.old) }
    {
        self.held.try_push(byte).is_ok()
    }
}
