//! What is read of a command's bytes, and what the grammar spells, as a call that does nothing.
ghost use Rattle.std.specs.Prelude.{◌≡◌, ℕ, Some, take};
ghost use Rattle.cif_grammar.specs.Commands.{Command};
ghost use Rattle.cif_grammar.specs.Cutting.{command_len};
ghost use Rattle.cif_grammar.specs.Grammar.{Spells};
ghost use Rattle.cif_grammar.specs.Reading.{command_of};

/// What is read of the bytes before a command's semicolon is a command that they spell; and what spells a
/// command is read as that one.
pub fn grammar_is_what_is_read(_bytes: &[u8])
    ensures takes { (len : ℕ) (c : Command) → command_len _bytes.now ≡ Some len
        → command_of (take len _bytes.now) ≡ Some c → Spells (take len _bytes.now) c }
    ensures again { (c : Command) → Spells _bytes.now c → command_of _bytes.now ≡ Some c }
{}
