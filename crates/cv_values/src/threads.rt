//! What may go to another thread, or be shared between threads, is shown by a call that does nothing.

/// Checked where values of the type may go to another thread. It does nothing.
pub fn crosses<T: Send>(_value: &T) {}

/// Checked where values of the type may also be shared between threads. It does nothing.
pub fn shared<T: Send + Sync>(_value: &T) {}
