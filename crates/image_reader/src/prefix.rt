// Where a node stands: the digits that the hashes of its keys begin with.
ghost use Rattle.std.specs.Prelude.{◌≡◌, ◌-◌, ◌^◌, ◌<◌, ◌≤◌};
ghost use Rattle.image_reader.specs.declared.prefix.TheConstants.{ROOT_HEIGHT};

use kinds::Key;

// The height of a root: how many digits a hash has.
pub(crate) const ROOT_HEIGHT: u8 = 8;

#[derive(Clone, Copy)]
pub(crate) struct Prefix {
    // of the node that stands at it
    pub(crate) height: u8,
    // the digits as a number, the root's lowest
    number: u64,
    // what is above all numbers of so many digits
    span: u64,
    ghost heights: { height ≤ ROOT_HEIGHT },
    ghost spans: { span ≡ 16 ^ (ROOT_HEIGHT - height) },
    ghost below: { number < span },
}

impl Prefix {
    ghost use Rattle.std.specs.Prelude.{◌+◌, [], ◌∷◌, ◌++◌};
    ghost use Rattle.model.specs.Tries.{leads};
    ghost use Rattle.image_reader.specs.Prefixes.{prefix_digits};

    pub(crate) fn root() -> Self
        ensures digits { prefix_digits result ≡ [] }
        ensures height { result.height ≡ ROOT_HEIGHT }
    {
        Prefix {
            height: ROOT_HEIGHT,
            number: 0,
            span: 1,
        }
    }

    // One digit more.
    pub(crate) fn child(self, digit: u8) -> Self
        requires some_below { 0 < self.height }
        requires small { digit < 16 }
        ensures digits { prefix_digits result ≡ prefix_digits self ++ (digit ∷ []) }
        ensures height { result.height + 1 ≡ self.height }
    {
        Prefix {
            height: self.height - 1,
            number: self.number + u64::from(digit) * self.span,
            span: self.span * 16,
        }
    }

    // Whether the hash of a key begins with these digits.
    pub(crate) fn leads<K: Key>(self, key: &K) -> bool
        ensures { result ≡ leads K.kind 0 (prefix_digits self) (K.bytes key.now) }
    {
        u64::from(key.hash()) % self.span == self.number
    }
}
