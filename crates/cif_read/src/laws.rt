//! What holds of the meaning of every text, as a call that does nothing.
ghost use Rattle.std.specs.Prelude.{◌≡◌, Result};
ghost use Rattle.cif_read.specs.declared.fault.CifFault.{CifFault};
ghost use Rattle.cif_read.specs.Contents.{Contents};
ghost use Rattle.cif_read.specs.Meaning.{IsMeaning};

/// A text has one meaning, or one first fault.
pub fn a_text_has_one_meaning(_text: &[u8])
    ensures { (a b : Result Contents CifFault) → IsMeaning _text.now a → IsMeaning _text.now b → a ≡ b }
{}
