//! The key order law.
ghost use Rattle.cv_keys.specs.KeyOrder.{KeysGoByItems, KeysAreExact, NoKeyIsPrefix, PlacesGoByKeys, IntervalsHoldByKeys};
ghost use Rattle.cv_keys.specs.Touch.{TouchGoesByKeys};

use crate::write::Write;
use cv_values::crosses;

/// The byte order of keys is the order of what they are keys of. It holds of all values whose
/// integers fit 64 bits.
///
/// - The byte order of the keys of two items is the order of the items.
/// - Different items have different keys.
/// - Where the key of an item begins with that of another, nothing follows it.
/// - The byte order of the keys of two lists of items is the order of the lists.
/// - A place is in an interval just where its key isn't below the key of the lower end, and is below
///   that of the upper one.
/// - A write touches the bytes of an interval exactly where the place of its old or its new document
///   lies in the interval.
pub fn keys_keep_order()
    ensures order { KeysGoByItems }
    ensures exact { KeysAreExact }
    ensures prefix { NoKeyIsPrefix }
    ensures lists { PlacesGoByKeys }
    ensures intervals { IntervalsHoldByKeys }
    ensures touch { TouchGoesByKeys }
{}

/// Writes may go to another thread.
pub fn writes_cross(write: &Write) {
    crosses(write);
}
