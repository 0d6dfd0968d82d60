//! Connections that go round among workers: each is given one turn after the other until it is over.
//!
//! A pool keeps its connections in two queues, waiting and set aside. A worker takes the one that has waited
//! longest, gives it a turn, and puts it back behind the others, or sets it aside where it is over. So no two
//! workers have one connection at once. A [`PoolPass`] is the right to put and to work, and all passes
//! together are the right to close the pool.
//!
//! The idea is the shared run queue of a scheduler whose workers go round. Both queues are rings of a fixed
//! size, those of the crate `crossbeam_queue`, after Dmitry Vyukov's bounded queue for many producers and
//! consumers. A turn costs a pop, a push and a look at how many are set aside, and takes no memory of the
//! pool's. Nobody wakes a worker: it asks each connection in turn, and sleeps for a moment after a round in
//! which none had anything to do.
#![tactic(auto)]

mod closing;
mod hand;
mod pool;
#[cfg(test)]
mod tests;
mod work;

pub use hand::Numbered;
pub use pool::{Pool, PoolPass};
