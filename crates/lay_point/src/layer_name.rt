//! Layer names, kept in place.
ghost use Rattle.std.specs.Prelude.{◌≡◌, IsTrue};
ghost use Rattle.std.specs.List.{list_all};
ghost use Rattle.lay_point.specs.Names.{is_layer_name, is_name_byte, layer_name_of};

use std::marker::Model;

/// The most bytes of a layer name.
pub const MAX_LAYER_NAME: usize = 16;

const _: () = prove!(MAX_LAYER_NAME == 16);

/// The name of a layer: 1 to `MAX_LAYER_NAME` digits and upper-case letters. Contracts see its bytes.
#[derive(Clone, Copy, Debug)]
pub struct LayerName {
    /// The name, and zeros behind it.
    bytes: [u8; MAX_LAYER_NAME],
    len: u8,
}

impl Model for LayerName {
    ghost use Rattle.std.specs.Prelude.{ℕ, List, take};

    ghost Value = { List ℕ };

    ghost use Rattle.lay_point.specs.Padded.{IsPadded, kept_name, kept_name_again};

    ghost view = { λ n. take n.len n.bytes };

    ghost invariant = { IsPadded };

    ghost inverse = { kept_name };

    ghost inverse_ok = { kept_name_again };
}

impl LayerName {
    /// Returns the name that the bytes spell, or `None` where they are no name.
    pub fn new(bytes: &[u8]) -> Option<LayerName>
        ensures { result ≡ layer_name_of bytes.now }
    {
        if !is_layer_name(bytes) {
            return None;
        }
        let mut padded = [0; MAX_LAYER_NAME];
        padded[..bytes.len()].copy_from_slice(bytes);
        Some(LayerName {
            bytes: padded,
            len: bytes.len() as u8,
        })
    }

    /// Returns the bytes of the name.
    pub fn as_bytes(&self) -> &[u8]
        ensures value { result.now ≡ self.now }
        ensures name { IsTrue (is_layer_name self.now) }
    {
        &self.bytes[..usize::from(self.len)]
    }
}

impl PartialEq for LayerName {
    ghost use Rattle.lay_point.specs.Same.{names_eq, names_eq_partial};

    ghost eq = { names_eq };

    ghost laws = { names_eq_partial };

    fn eq(&self, other: &LayerName) -> bool {
        self.as_bytes() == other.as_bytes()
    }
}

impl Eq for LayerName {
    ghost use Rattle.lay_point.specs.Same.{names_eq_equiv};

    ghost laws = { names_eq_equiv };
}

/// Returns whether the bytes spell a layer name.
fn is_layer_name(bytes: &[u8]) -> bool
    ensures { result ≡ is_layer_name bytes.now }
{
    !bytes.is_empty() && bytes.len() <= MAX_LAYER_NAME && are_name_bytes(bytes)
}

fn are_name_bytes(bytes: &[u8]) -> bool
    ensures { result ≡ list_all is_name_byte bytes.now }
{
    bytes.iter().all(|b| is_name_byte(*b))
}

/// Returns whether the byte may stand in a layer name.
fn is_name_byte(byte: u8) -> bool
    ensures { result ≡ is_name_byte byte }
{
    byte.is_ascii_digit() || byte.is_ascii_uppercase()
}
