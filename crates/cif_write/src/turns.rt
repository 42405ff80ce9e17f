//! Turns as the changes of a call.
ghost use Rattle.std.specs.Prelude.{◌≡◌};
ghost use Rattle.byte_io.specs.Buffered.{Buffered};
ghost use Rattle.cif_write.specs.Lines.{mirror_text, quarter_text, shift_text, turn_text};

use crate::points::put_point;
use byte_io::{Out, OutBuffer};
use lay_point::{Point, Quarter, Turn};

/// Puts what a call says of its turn: the mirror, the quarter turns and the shift that there are.
pub(crate) fn put_turn<O: Out>(out: &mut O, buffer: &mut OutBuffer, turn: Turn)
    ensures { Buffered O.written O.failures out.old buffer.old out.new buffer.new (turn_text turn) }
{
    put_mirror(out, buffer, turn.mirror);
    put_quarter(out, buffer, turn.quarter);
    put_shift(out, buffer, turn.shift);
}

/// Puts the mirror, if there is one.
fn put_mirror<O: Out>(out: &mut O, buffer: &mut OutBuffer, mirror: bool)
    ensures { Buffered O.written O.failures out.old buffer.old out.new buffer.new
        (mirror_text mirror) }
{
    if mirror {
        buffer.put(out, b" M X");
    }
}

/// Puts the direction of the x axis, if it has turned.
fn put_quarter<O: Out>(out: &mut O, buffer: &mut OutBuffer, quarter: Quarter)
    ensures { Buffered O.written O.failures out.old buffer.old out.new buffer.new
        (quarter_text quarter) }
{
    let words: &[u8] = match quarter {
        Quarter::R0 => b"",
        Quarter::R90 => b" R 0 1",
        Quarter::R180 => b" R -1 0",
        Quarter::R270 => b" R 0 -1",
    };
    buffer.put(out, words);
}

/// Puts the shift, if there is one.
fn put_shift<O: Out>(out: &mut O, buffer: &mut OutBuffer, shift: Point)
    ensures { Buffered O.written O.failures out.old buffer.old out.new buffer.new
        (shift_text shift) }
{
    if shift != (Point { x: 0, y: 0 }) {
        buffer.put(out, b" T");
        put_point(out, buffer, shift);
    }
}
