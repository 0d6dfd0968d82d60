//! What holds of what trees hold, whatever is called.
ghost use Rattle.cv_ranges.specs.Laws.{EmptyHoldsNone, OneOwnerChanges, EqualAreHeld, TouchedAreHit};

use range_tree::lists_tell;

/// What callers of [`put`](crate::put), [`take_out`](crate::take_out) and
/// [`hit_touched`](crate::hit_touched) need to know of what a tree holds.
pub fn ranges_tell()
    ensures empty { EmptyHoldsNone }
    ensures changed { OneOwnerChanges }
    ensures equal { EqualAreHeld }
    ensures touched { TouchedAreHit }
{
    lists_tell();
}
