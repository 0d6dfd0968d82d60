use crate::attempt::Attempt;

/// The job of a mutation's call over a store: at a begin, or at a pause of the call's run.
///
/// A job that isn't at a begin means its call, its snapshot, the number of reads that it has made, and what
/// its last step's store had then seen.
#[derive(Drop)]
pub struct RunJob {
    pub(crate) attempt: Option<Attempt>,
}
