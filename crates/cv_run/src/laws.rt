//! Laws of runs over snapshots, each a function with nothing to do.
ghost use Rattle.cv_run.specs.Snapshots.{IdsAreDistinct, NewCallsAreFresh, SnapshotsStay};

use crate::run_job::RunJob;
use cv_values::crosses;

/// The documents of a timestamp of a legal history have distinct ids, none of them an id of a call that has
/// no entry, and they stay the same when the history goes on.
pub fn snapshots_hold()
    ensures distinct { IdsAreDistinct }
    ensures fresh { NewCallsAreFresh }
    ensures stay { SnapshotsStay }
{}

/// Jobs may go to another thread.
pub fn jobs_cross(job: &RunJob) {
    crosses(job);
}
