use cv_store::ReadReq;
use fn_tree::{Ask, Reply};

/// Where a run pauses: at a read, with the store read that it needs, or at its end, with its reply twice,
/// once for the entry and once for the caller. So a step has no work before its call of the store.
#[derive(Drop)]
pub enum Pause {
    Read { ask: Ask, plan: ReadReq },
    End { reply: Reply, told: Reply },
}
