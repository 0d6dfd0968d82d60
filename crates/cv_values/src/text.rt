ghost use Rattle.std.specs.Prelude.{◌≡◌, IfOk, Some, string_bytes};
ghost use Rattle.std.proofs.Common.{refl};
ghost use Rattle.std.specs.Cmp.{partial_equiv_from_equiv};
ghost use Rattle.std.specs.Cmp.Lexicographic.{pointwise, slice_cmp, nat_list_eq_equiv, nat_list_cmp_total, texts_po, texts_ties, same_text};
ghost use Rattle.std.specs.Ordering.{nat_cmp};
ghost use Rattle.std.specs.Prelude.{nat_eq};
ghost use Rattle.std.specs.Hash as fed;
ghost use Rattle.std.specs.Cmp.Rules.{hashing};
ghost use Rattle.std.proofs.Common.{rules};

use crate::memory::Memory;
use std::alloc::Global;
use std::cmp::Ordering;
use std::hash::{Hash, Hasher};
use std::marker::Model;

/// UTF-8 text. Contracts see the list of its bytes, by which two texts are compared.
#[derive(Debug, Drop)]
pub struct Text {
    inner: String,
}

impl Model for Text {
    ghost use Rattle.std.specs.Prelude.{List, ℕ, string_bytes};

    ghost Value = { List ℕ };

    ghost view = { λ t. string_bytes t.inner };
}

impl Text {
    /// The text of a string slice, which is copied.
    pub fn of(alloc: Global, s: &str) -> Result<Text, Memory>
        ensures { IfOk result (λ t. t ≡ s.now) }
    {
        Ok(Text {
            inner: String::from_str(alloc, s)?,
        })
    }

    /// The text of a string, which is not copied.
    pub fn from_string(inner: String) -> Text
        ensures { result ≡ string_bytes inner }
    {
        Text { inner }
    }

    /// The text as a string slice.
    pub fn as_str(&self) -> &str
        ensures { result.now ≡ self.now }
    {
        self.inner.as_str()
    }

    /// An equal text, in memory of its own.
    pub fn copy(&self, alloc: Global) -> Result<Text, Memory>
        ensures { IfOk result (λ t. t ≡ self.now) }
    {
        Text::of(alloc, self.as_str())
    }
}

impl PartialEq for Text {
    ghost eq = { pointwise nat_eq };

    ghost laws = { partial_equiv_from_equiv nat_list_eq_equiv };

    fn eq(&self, other: &Text) -> bool {
        self.inner == other.inner
    }
}

impl Eq for Text {
    ghost laws = { nat_list_eq_equiv };
}

impl PartialOrd for Text {
    ghost partial_cmp = { λ x y. Some (slice_cmp nat_cmp x y) };

    ghost laws = { texts_po };

    fn partial_cmp(&self, other: &Text) -> Option<Ordering> {
        Some(self.cmp(other))
    }
}

impl Ord for Text {
    ghost cmp = { slice_cmp nat_cmp };

    ghost total = { nat_list_cmp_total };

    ghost matches_partial_cmp = { λ x y. refl };

    ghost matches_eq = { texts_ties };

    fn cmp(&self, other: &Text) -> Ordering {
        self.inner.cmp(&other.inner)
    }
}

impl Hash for Text {
    ghost hash_input = { fed.str };

    ghost respects_eq = { Prim.search (hashing, rules) };

    fn hash<H: Hasher>(&self, state: &mut H) {
        self.inner.hash(state);
    }
}

/// A string of bytes. Contracts see their list.
#[derive(Debug, Drop)]
pub struct Bytes {
    inner: Vec<u8>,
}

impl Model for Bytes {
    ghost use Rattle.std.specs.Prelude.{List, ℕ};

    ghost Value = { List ℕ };

    ghost view = { λ b. b.inner.items };
}

impl Bytes {
    /// The bytes of a slice, which is copied.
    pub fn of(alloc: Global, b: &[u8]) -> Result<Bytes, Memory>
        ensures { IfOk result (λ t. t ≡ b.now) }
    {
        Ok(Bytes {
            inner: Vec::from_slice(alloc, b)?,
        })
    }

    /// The bytes as a slice.
    pub fn as_slice(&self) -> &[u8]
        ensures { result.now ≡ self.now }
    {
        self.inner.as_slice()
    }

    /// Equal bytes, in memory of their own.
    pub fn copy(&self, alloc: Global) -> Result<Bytes, Memory>
        ensures { IfOk result (λ t. t ≡ self.now) }
    {
        Bytes::of(alloc, self.as_slice())
    }
}
