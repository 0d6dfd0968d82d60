//! What holds of machines, whatever is called.
use crate::machine::Machine;
use cv_values::crosses;

/// Machines may go to another thread.
pub fn machines_cross(machine: &Machine) {
    crosses(machine);
}
