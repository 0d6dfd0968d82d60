//! What holds of the types, whatever is called.
use crate::query_cache::QueryCache;
use cv_values::crosses;

/// Caches may go to another thread.
pub fn caches_cross(cache: &QueryCache) {
    crosses(cache);
}
