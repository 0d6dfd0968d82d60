ghost use Rattle.cv_run.specs.Paused.{IsPaused};
ghost use Rattle.fn_tree.specs.SyntaxViews.{module_view};

use crate::pause::Pause;
use cv_store::{Meant, Seen};
use cv_tx::Tx;
use fn_tree::Call;
use fn_vm::Machine;

/// The run of a call over a snapshot, where it pauses between two steps, over the entries that its store
/// had seen at the last one.
#[derive(Drop)]
pub struct Attempt {
    pub call: Call,
    pub snapshot: u64,
    pub machine: Machine,
    pub tx: Tx,
    pub pause: Pause,
    pub seen: Seen,
    pub meant: Meant,
    pub ghost paused: { ∥ IsPaused (module_view meant.tree) seen.history call snapshot machine tx pause ∥₁ },
}
