//! What holds of the types, whatever is called.
use crate::solo::SoloStore;
use crate::the_core::Core;
use cv_values::crosses;

/// Cores and stores over them may go to another thread.
pub fn cores_cross(core: &Core, store: &SoloStore) {
    crosses(core);
    crosses(store);
}
