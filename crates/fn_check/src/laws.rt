//! What holds of checked modules, whatever is called.
use crate::checked::Checked;
use cv_values::shared;

/// Checked modules may be sent to another thread and be shared between threads.
pub fn checked_modules_are_shared(checked: &Checked) {
    shared(checked);
}
