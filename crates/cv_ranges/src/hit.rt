//! The owners that marks hit.
ghost use Rattle.std.specs.Prelude.{◌≡◌, ℕ, Option, Some, None};
ghost use Rattle.cv_ranges.specs.Hits.{marked_owners, after_hits, HasTaken};
ghost use Rattle.range_tree.specs.Ranges.{Takes};

use cv_reads::Mark;
use range_tree::{RangeTree, Visit};
use std::marker::{Brand, PhantomData};

/// What changes where an owner is hit. `after_hit` says what becomes of it.
pub trait Hit {
    ghost after_hit: { Self → ℕ → Self };

    /// Takes the hit of one owner.
    fn hit(&mut self, owner: u64)
        ensures { self.new ≡ after_hit self.old owner };
}

/// Hits the owners whose intervals in a tree have a mark's key, mark by mark, by one search of the tree
/// for each mark. It takes no memory.
pub fn hit_touched<M: Hit>(tree: &RangeTree, marks: &[Mark], hits: &mut M)
    ensures { hits.new ≡ after_hits M.after_hit hits.old (marked_owners marks.now tree.now) }
{
    hit_from::<M, Brand>(tree, marks, hits);
}

// The value before the first hit.
trait Opening<M> {
    ghost opening: { Option M };
}

impl<M> Opening<M> for Brand {
    ghost opening = { None };
}

// A value as a visitor of the tree. The name of its borrow stands before the owners seen.
#[derive(Drop)]
struct Noted<'a, M, K: Opening<M>> {
    value: &'a mut M,
    from: PhantomData<K>,
}

impl<'a, M: Hit, K: Opening<M>> Visit for Noted<'a, M, K> {
    ghost has_seen = { λ seen n. (m : _) → K.opening ≡ Some m → HasTaken M.after_hit m n.value seen };

    fn hit(&mut self, owner: u64) {
        self.value.hit(owner);
    }
}

fn hit_from<M: Hit, K: Opening<M>>(tree: &RangeTree, marks: &[Mark], hits: &mut M)
    requires { K.opening ≡ Some hits.old }
    ensures { hits.new ≡ after_hits M.after_hit hits.old (marked_owners marks.now tree.now) }
{
    let mut noted = Noted::<M, K> {
        value: hits,
        from: PhantomData,
    };
    visit_marked(tree, marks, &mut noted);
}

fn visit_marked<V: Visit>(tree: &RangeTree, marks: &[Mark], visit: &mut V)
    ensures { Takes V.has_seen visit.old (marked_owners marks.now tree.now) visit.new }
{
    for mark in marks {
        tree.hit_all(mark.table, mark.index, &mark.key, visit);
    }
}
