ghost use Rattle.std.specs.Prelude.{◌≡◌, option_map};
ghost use Rattle.cv_docs.specs.Rows.{counts, is_newest};

use cv_keys::Key;

/// What stands at a key of an index from a timestamp on, up to the key's next entry: the document
/// with this number in the [`Versions`](crate::Versions), or nothing where it is `None`.
#[derive(Drop)]
pub struct IndexEntry {
    pub key: Key,
    pub ts: u64,
    pub version: Option<u64>,
}

impl IndexEntry {
    /// Whether the entry says what stands at its key at a timestamp, where `next` is the one right
    /// behind it in its list.
    pub fn is_newest(&self, ts: u64, next: Option<&IndexEntry>) -> bool
        ensures { result ≡ is_newest ts self.now (option_map (λ e. e.now) next.entry) }
    {
        match next {
            None => self.ts <= ts,
            Some(next) => self.ts <= ts && !next.counts(&self.key, ts),
        }
    }

    // Whether it is an entry of this key up to this timestamp.
    fn counts(&self, key: &Key, ts: u64) -> bool
        ensures { result ≡ counts ts key.now self.now }
    {
        self.key == *key && self.ts <= ts
    }
}
