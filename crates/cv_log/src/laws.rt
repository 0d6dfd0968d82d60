//! What holds of logs, whatever is called.
use crate::write_log::WriteLog;
use cv_values::crosses;

/// Logs may go to another thread.
pub fn logs_cross(log: &WriteLog) {
    crosses(log);
}
