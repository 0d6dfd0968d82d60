//! What a thread does between two tries.
use std::sync::Wait;
use std::thread;
use std::thread::Parker;
use std::time::Duration;

// So often a thread that waits lets others run, before it begins to sleep.
const YIELDS: u32 = 64;

// How many microseconds it then sleeps between two tries.
const NAP: u64 = 50;

/// Lets others run, or sleeps where this was tried often.
pub(crate) fn pause<R: Wait>(rt: &R, tries: u32) {
    if tries < YIELDS {
        thread::yield_now();
    } else {
        Parker::new().park_timeout(rt, Duration::from_micros(NAP));
    }
}
