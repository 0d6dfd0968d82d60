//! Where a number stands, or would stand, in the list.
ghost use Rattle.std.specs.Prelude.{MatchResult};
ghost use Rattle.cv_subs.specs.Subs.{IsRising};
ghost use Rattle.cv_subs.specs.Views.{all_shown, IsAt, IsPlace};

use crate::record::Record;

/// The place of the query of a number, or the place where it would stand.
pub fn search(list: &[Record], id: u64) -> Result<usize, usize>
    requires { IsRising (all_shown list.now) }
    ensures { MatchResult result (λ k. IsAt id k list.now) (λ k. IsPlace id k list.now) }
{
    list.binary_search_by_key(&id, |r| u64::from(r.id))
}
