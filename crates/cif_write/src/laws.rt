//! What holds of every text that is written, as calls that do nothing.
ghost use Rattle.std.specs.Prelude.{None};
ghost use Rattle.cif_write.specs.Idle.{EndsWithEnd, NoneIdle};
ghost use Rattle.cif_write.specs.Text.{file_lines};
ghost use Rattle.cif_write.specs.Unused.{IsLeastUnused};
ghost use Rattle.cif_write.specs.Wrap.{least_unused, written};

use lay_cells::Cells;
use lay_items::Snapshot;

/// No layer line of the text is idle: each sets another layer than is set, and a path comes next. The last
/// line is `E`.
pub fn lines_are_not_idle(_snapshot: &Snapshot)
    ensures none_idle { NoneIdle None (file_lines (written _snapshot.now)) }
    ensures end { EndsWithEnd _snapshot.now }
{}

/// The number of the wrapping symbol is positive, no symbol has it, and some symbol has each lesser one.
pub fn the_wrapping_symbol_is_the_least_unused(_symbols: &Cells)
    ensures { IsLeastUnused _symbols.now (least_unused _symbols.now) }
{}
