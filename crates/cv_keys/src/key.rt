ghost use Rattle.std.specs.Prelude.{◌≡◌, [], ◌∷◌, ◌++◌, IfOk, Some};
ghost use Rattle.std.proofs.Common.{refl};
ghost use Rattle.std.specs.Cmp.{partial_equiv_from_equiv};
ghost use Rattle.std.specs.Cmp.Lexicographic.{pointwise, slice_cmp, nat_list_eq_equiv, nat_list_cmp_total, texts_po, texts_ties};
ghost use Rattle.std.specs.Ordering.{nat_cmp};
ghost use Rattle.std.specs.Prelude.{nat_eq};

use crate::kinds::LAST;
use cv_values::{Copied, Memory};
use std::alloc::Global;
use std::cmp::Ordering;
use std::marker::Model;

/// The key of a value or of a list of items. Contracts see the list of its bytes, by which two
/// keys are compared.
#[derive(Debug, Drop)]
pub struct Key {
    bytes: Vec<u8>,
}

impl Model for Key {
    ghost use Rattle.std.specs.Prelude.{List, ℕ};

    ghost Value = { List ℕ };

    ghost view = { λ k. k.bytes.items };
}

impl Key {
    /// The key of these bytes, which are not copied.
    pub(crate) fn from_vec(bytes: Vec<u8>) -> Key
        ensures { result ≡ bytes.items }
    {
        Key { bytes }
    }

    /// The bytes as a slice.
    pub fn as_slice(&self) -> &[u8]
        ensures { result.now ≡ self.now }
    {
        self.bytes.as_slice()
    }

    /// An equal key, in memory of its own.
    pub fn copy(&self, alloc: Global) -> Result<Key, Memory>
        ensures { IfOk result (λ k. k ≡ self.now) }
    {
        Ok(Key {
            bytes: Vec::from_slice(alloc, self.bytes.as_slice())?,
        })
    }

    /// The key followed by the byte FF: right behind all keys of lists that begin with this one's.
    pub fn past(&self, alloc: Global) -> Result<Key, Memory>
        ensures { IfOk result (λ k. k ≡ self.now ++ 255 ∷ []) }
    {
        let mut bytes = Vec::with_capacity(alloc, self.bytes.len().saturating_add(1))?;
        bytes.extend_from_slice(self.bytes.as_slice())?;
        bytes.push(LAST)?;
        Ok(Key { bytes })
    }
}

impl Copied for Key {
    fn copy(&self, alloc: Global) -> Result<Key, Memory> {
        Key::copy(self, alloc)
    }
}

impl PartialEq for Key {
    ghost eq = { pointwise nat_eq };

    ghost laws = { partial_equiv_from_equiv nat_list_eq_equiv };

    fn eq(&self, other: &Key) -> bool {
        self.bytes == other.bytes
    }
}

impl Eq for Key {
    ghost laws = { nat_list_eq_equiv };
}

impl PartialOrd for Key {
    ghost partial_cmp = { λ x y. Some (slice_cmp nat_cmp x y) };

    ghost laws = { texts_po };

    fn partial_cmp(&self, other: &Key) -> Option<Ordering> {
        Some(self.cmp(other))
    }
}

impl Ord for Key {
    ghost cmp = { slice_cmp nat_cmp };

    ghost total = { nat_list_cmp_total };

    ghost matches_partial_cmp = { λ x y. refl };

    ghost matches_eq = { texts_ties };

    fn cmp(&self, other: &Key) -> Ordering {
        self.bytes.as_slice().cmp(other.bytes.as_slice())
    }
}
