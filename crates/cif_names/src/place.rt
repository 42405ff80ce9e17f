//! Where a command of a text stands.
ghost use Rattle.std.specs.Prelude.{◌≡◌};
ghost use Rattle.cif_names.specs.Places.{
  after_bracket,
  layer_at,
  layered,
  outside,
  place_after,
  place_closed,
  place_opened,
};

use cif_grammar::{Class, Definition, Scale, are_blanks, read_definition, read_layer, skip};
use lay_point::LayerName;

/// Where a command stands.
#[derive(Clone, Copy, Debug)]
pub(crate) struct Place {
    /// The symbol whose definition is open.
    pub symbol: Option<u32>,
    /// The scale of distances.
    pub scale: Scale,
    /// The layer that is set.
    pub layer: Option<LayerName>,
    /// The layer that is set again where the definition ends.
    pub saved: Option<LayerName>,
}

impl Place {
    /// Returns the place in no definition, with no layer set.
    pub fn outside() -> Place
        ensures { result ≡ outside }
    {
        Place {
            symbol: None,
            scale: Scale {
                numerator: 1,
                denominator: 1,
            },
            layer: None,
            saved: None,
        }
    }

    /// Returns the place behind this command, which stands here.
    #[tactic(auto, unfolding(crate::specs::Places::place_after))]
    pub fn after(self, piece: &[u8]) -> Place
        ensures { result ≡ place_after self piece.now }
    {
        match piece {
            [b'D', behind @ ..] => self.after_bracket(skip(behind, Class::Blank)),
            [b'L', behind @ ..] => self.layered(layer_at(behind)),
            _ => self,
        }
    }

    /// Returns the place behind a `D`, blanks and these bytes.
    fn after_bracket(self, bytes: &[u8]) -> Place
        ensures { result ≡ after_bracket self bytes.now }
    {
        match bytes {
            [b'S', behind @ ..] => self.opened(read_definition(behind)),
            [b'F', behind @ ..] if are_blanks(behind) => self.closed(),
            _ => self,
        }
    }

    /// Returns the place in the definition, if there is one.
    fn opened(self, definition: Option<Definition>) -> Place
        ensures { result ≡ place_opened self definition }
    {
        match definition {
            None => self,
            Some(definition) => Place {
                symbol: Some(definition.symbol),
                scale: definition.scale,
                layer: None,
                saved: self.layer,
            },
        }
    }

    /// Returns the place behind the end of the definition.
    fn closed(self) -> Place
        ensures { result ≡ place_closed self }
    {
        Place {
            layer: self.saved,
            ..Place::outside()
        }
    }

    /// Returns the place with this layer set, if there is one.
    fn layered(self, layer: Option<LayerName>) -> Place
        ensures { result ≡ layered self layer }
    {
        match layer {
            None => self,
            Some(layer) => Place {
                layer: Some(layer),
                ..self
            },
        }
    }
}

/// Returns the layer behind an `L`.
#[tactic(auto, unfolding(crate::specs::Places::layer_at))]
fn layer_at(bytes: &[u8]) -> Option<LayerName>
    ensures { result ≡ layer_at bytes.now }
{
    let name = read_layer(bytes)?;
    LayerName::new(name)
}
