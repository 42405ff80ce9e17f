//! Words of a command.
ghost use Rattle.std.specs.Prelude.{◌≡◌, ◌≤◌, length};
ghost use Rattle.std.specs.List.{list_all, prefix_len};
ghost use Rattle.cif_grammar.specs.Views.{Gives};
ghost use Rattle.cif_names.specs.Words.{
  field_at,
  is_between,
  is_coordinate_byte,
  is_dark,
  is_space,
  only_word,
  word_at,
};

/// Returns the first word of the bytes, and what stands behind it. `None` where there is no word.
#[tactic(auto, unfolding(crate::specs::Words::word_at))]
pub(crate) fn split_word(bytes: &[u8]) -> Option<(&[u8], &[u8])>
    ensures { Gives (λ f. (f.0.now, f.1.now)) result (word_at bytes.now) }
{
    let rest = &bytes[space_len(bytes)..];
    let (word, behind) = rest.split_at(dark_len(rest));
    if word.is_empty() {
        return None;
    }
    Some((word, behind))
}

/// Returns the first coordinate of the bytes, and what stands behind it. `None` where there is none.
#[tactic(auto, unfolding(crate::specs::Words::field_at))]
pub(crate) fn split_field(bytes: &[u8]) -> Option<(&[u8], &[u8])>
    ensures { Gives (λ f. (f.0.now, f.1.now)) result (field_at bytes.now) }
{
    let rest = &bytes[between_len(bytes)..];
    let (field, behind) = rest.split_at(within_len(rest));
    if field.is_empty() {
        return None;
    }
    Some((field, behind))
}

/// Returns the word of bytes that have just one.
#[tactic(auto, unfolding(crate::specs::Words::only_word))]
pub(crate) fn only_word(bytes: &[u8]) -> Option<&[u8]>
    ensures { Gives (λ word. word.now) result (only_word bytes.now) }
{
    let (word, behind) = split_word(bytes)?;
    if !are_spaces(behind) {
        return None;
    }
    Some(word)
}

/// Returns whether there is no word in the bytes.
pub(crate) fn are_spaces(bytes: &[u8]) -> bool
    ensures { result ≡ list_all is_space bytes.now }
{
    bytes.iter().all(|b| is_space(*b))
}

/// Returns how many bytes at the start are between words.
fn space_len(bytes: &[u8]) -> usize
    ensures value { result ≡ prefix_len is_space bytes.now }
    ensures within { result ≤ length bytes.now }
{
    bytes.iter().take_while(|b| is_space(**b)).count()
}

/// Returns how many bytes at the start are of a word.
fn dark_len(bytes: &[u8]) -> usize
    ensures value { result ≡ prefix_len is_dark bytes.now }
    ensures within { result ≤ length bytes.now }
{
    bytes.iter().take_while(|b| is_dark(**b)).count()
}

/// Returns how many bytes at the start are between coordinates.
fn between_len(bytes: &[u8]) -> usize
    ensures value { result ≡ prefix_len is_between bytes.now }
    ensures within { result ≤ length bytes.now }
{
    bytes.iter().take_while(|b| is_between(**b)).count()
}

/// Returns how many bytes at the start are of a coordinate.
fn within_len(bytes: &[u8]) -> usize
    ensures value { result ≡ prefix_len is_coordinate_byte bytes.now }
    ensures within { result ≤ length bytes.now }
{
    bytes.iter().take_while(|b| is_within(**b)).count()
}

/// Returns whether the byte stands between coordinates.
fn is_between(byte: u8) -> bool
    ensures { result ≡ is_between byte }
{
    is_space(byte) || byte == b','
}

/// Returns whether the byte is of a coordinate.
fn is_within(byte: u8) -> bool
    ensures { result ≡ is_coordinate_byte byte }
{
    is_dark(byte) && byte != b','
}

/// Returns whether the byte is of a word.
fn is_dark(byte: u8) -> bool
    ensures { result ≡ is_dark byte }
{
    byte > 32
}

/// Returns whether the byte stands between words.
fn is_space(byte: u8) -> bool
    ensures { result ≡ is_space byte }
{
    byte <= 32
}
