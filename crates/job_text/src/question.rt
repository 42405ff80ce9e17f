//! Questions of a live run.
ghost use Rattle.std.specs.Prelude.{◌≡◌};
ghost use Rattle.job_text.specs.Questions.{question_of};
ghost use Rattle.job_text.specs.Words.{words};

use crate::fields::{cell_alone, ended, item_alone, txn_alone};
use lay_cells::CellId;
use lay_layouts::ItemId;
use txn_commands::TxnId;

/// What a live run is asked of its committed layout and history. It changes nothing.
#[derive(Clone, Copy, Debug, PartialEq, Eq)]
pub enum Question {
    /// Which cells there are, and how many items each has.
    Cells,
    /// Which items a cell has.
    Items(CellId),
    /// What an item is.
    Look(ItemId),
    /// Which transactions were committed, and which of them are undone.
    History,
    /// What a committed transaction wrote.
    Changes(TxnId),
}

/// Returns the question of this name, with the words behind that.
#[tactic(auto, unfolding(crate::specs::Questions::question_of))]
pub(crate) fn question_of(name: &[u8], line: &[u8]) -> Option<Question>
    ensures { result ≡ question_of name.now (words line.now) }
{
    if name == "%cells".as_bytes() {
        return ended(line, Question::Cells);
    }
    if name == "%items".as_bytes() {
        return cell_alone(line).map(Question::Items);
    }
    if name == "%look".as_bytes() {
        return item_alone(line).map(Question::Look);
    }
    if name == "%history".as_bytes() {
        return ended(line, Question::History);
    }
    if name == "%changes".as_bytes() {
        return txn_alone(line).map(Question::Changes);
    }
    None
}
