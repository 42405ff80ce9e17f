//! The classes of bytes that the grammar speaks of, and runs of them.
ghost use Rattle.std.specs.Prelude.{◌≡◌, ◌≤◌, length};
ghost use Rattle.std.specs.List.{prefix_len};
ghost use Rattle.cif_grammar.specs.Bytes.{
  is_blank,
  is_gap,
  is_in_class,
  is_mark,
  is_separator,
  skip,
};

/// A class of bytes.
#[derive(Clone, Copy, Debug, PartialEq, Eq)]
pub enum Class {
    /// ASCII bytes other than digits, upper-case letters, `-`, `(`, `)` and `;`.
    Blank,
    /// Upper-case letters and blanks: what may stand between numbers.
    Separator,
    /// Blanks and semicolons: what may stand between commands.
    Gap,
    /// Digits and upper-case letters.
    Name,
    /// `0` to `9`.
    Digit,
}

impl Class {
    /// Returns whether the byte is of this class.
    pub fn contains(self, byte: u8) -> bool
        ensures { result ≡ is_in_class self byte }
    {
        match self {
            Class::Blank => is_blank(byte),
            Class::Separator => is_separator(byte),
            Class::Gap => is_gap(byte),
            Class::Name => byte.is_ascii_digit() || byte.is_ascii_uppercase(),
            Class::Digit => byte.is_ascii_digit(),
        }
    }
}

#[tactic(auto, unfolding(crate::specs::Bytes::is_mark))]
fn is_mark(byte: u8) -> bool
    ensures { result ≡ is_mark byte }
{
    byte == b'-' || byte == b'(' || byte == b')' || byte == b';'
}

#[tactic(auto, unfolding(crate::specs::Bytes::is_blank))]
fn is_blank(byte: u8) -> bool
    ensures { result ≡ is_blank byte }
{
    byte.is_ascii() && !(byte.is_ascii_digit() || byte.is_ascii_uppercase() || is_mark(byte))
}

#[tactic(auto, unfolding(crate::specs::Bytes::is_separator))]
fn is_separator(byte: u8) -> bool
    ensures { result ≡ is_separator byte }
{
    byte.is_ascii_uppercase() || is_blank(byte)
}

#[tactic(auto, unfolding(crate::specs::Bytes::is_gap))]
fn is_gap(byte: u8) -> bool
    ensures { result ≡ is_gap byte }
{
    byte == b';' || is_blank(byte)
}

/// Returns how many bytes at the start are of the class.
pub(crate) fn run_len(bytes: &[u8], class: Class) -> usize
    ensures value { result ≡ prefix_len (is_in_class class) bytes.now }
    ensures within { result ≤ length bytes.now }
{
    bytes.iter().take_while(|b| class.contains(**b)).count()
}

/// Skips the bytes of the class at the start.
pub fn skip(bytes: &[u8], class: Class) -> &[u8]
    ensures { result.now ≡ skip (is_in_class class) bytes.now }
{
    &bytes[run_len(bytes, class)..]
}
