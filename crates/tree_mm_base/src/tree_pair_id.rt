ghost use Rattle.std.specs.Prelude.{◌≡◌};
ghost use Rattle.std.specs.Option.{option_map};

use elem::Elem;
use std::marker::Model;

/// The name of a pair: the pair itself.
#[derive(Clone, Copy, Debug)]
pub struct TreePairId {
    key: Elem,
    value: Elem,
}

impl Model for TreePairId {
    ghost use Rattle.elem.specs.declared.elements.Elem.{Elem as Element};

    ghost Value = { Element × Element };

    ghost view = { λ id. (id.key, id.value) };

    ghost inverse = { λ p. record { key = p.0; value = p.1 } };
}

impl TreePairId {
    /// The pair, its key first.
    pub fn pair(self) -> (Elem, Elem)
        ensures { result ≡ self }
    {
        (self.key, self.value)
    }
}

/// The id of a key's pair with a value, where there is a value.
pub(crate) fn id_in(key: &Elem, value: Option<Elem>) -> Option<TreePairId>
    ensures { result ≡ option_map (λ v. (key.now, v)) value }
{
    match value {
        None => None,
        Some(value) => Some(TreePairId { key: *key, value }),
    }
}

/// The id of a pair, where there is one.
pub(crate) fn some_id(pair: Option<(Elem, Elem)>) -> Option<TreePairId>
    ensures { result ≡ pair }
{
    match pair {
        None => None,
        Some((key, value)) => Some(TreePairId { key, value }),
    }
}
