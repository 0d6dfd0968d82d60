ghost use Rattle.std.specs.Prelude.{ℕ, List, [], ◌∷◌};
ghost use Rattle.range_tree.specs.Ranges.{Takes};

/// Takes the owners that a search hits, one after the other.
///
/// `has_seen` says what a visitor is that took the owners of a list, in this order. A visitor that
/// counts, for one, says that its count is the list's length.
pub trait Visit {
    ghost has_seen: { List ℕ → Self → Type 0 };

    /// Takes one owner.
    fn hit(&mut self, owner: u64)
        ensures { Takes Self.has_seen self.old (owner ∷ []) self.new };
}
