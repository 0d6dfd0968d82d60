//! What a run goes by, and how far it is.
ghost use Rattle.std.specs.Prelude.{ℕ, IfOk, IfErr};
ghost use Rattle.fn_tree.specs.Actions.{spend};
ghost use Rattle.fn_plain.specs.States.{IsWithin, Gives, Fails, site_at};

use crate::fault::{Fault, failure};
use cv_keys::{Interval, Schema};
use cv_values::Doc;
use fn_tree::{Function, Origin, Put};
use std::alloc::Global;

/// The limits of a run.
#[derive(Clone, Copy, Debug, PartialEq, Eq)]
pub struct Limits {
    pub cost: u64,
    pub rows: u64,
    pub size: u64,
    pub ranges: u64,
    pub writes: u64,
    pub written: u64,
    pub reply: u64,
}

/// What a run has used up so far.
#[derive(Clone, Copy, Debug, PartialEq, Eq)]
pub(crate) struct Counts {
    pub cost: u64,
    pub rows: u64,
    pub size: u64,
    pub ranges: u64,
    pub writes: u64,
    pub written: u64,
    pub inserts: u64,
}

/// What a run goes by: the tables and the functions of its module, its limits, where it comes from,
/// and the documents before it.
pub(crate) struct Context<'a> {
    pub alloc: Global,
    pub schema: &'a Schema,
    pub functions: &'a [Function],
    pub limits: Limits,
    pub origin: Option<Origin>,
    pub base: &'a [Doc],
}

/// What a run has done so far.
#[derive(Drop)]
pub(crate) struct Progress {
    pub puts: Vec<Put>,
    pub reads: Vec<Interval>,
    pub counts: Counts,
}

/// One unit of cost, where one is left.
pub(crate) fn spend(context: &Context, progress: &mut Progress) -> Result<(), Fault>
    requires within { IsWithin 0 context.now progress.now.counts }
    ensures ok { (n : ℕ) → IfOk result (λ u. Gives context.now progress.old progress.new (spend (site_at context.now n)) u) }
    ensures err { (n : ℕ) → IfErr result (λ f. Fails context.now progress.old progress.new (spend (site_at context.now n)) f) }
{
    let left = progress.counts.cost < context.limits.cost;
    progress.counts.cost += 1;
    if left {
        Ok(())
    } else {
        Err(failure(context.alloc, "CostLimit"))
    }
}
