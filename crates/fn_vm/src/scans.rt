//! Scans of an index, up to the question.
ghost use Rattle.std.specs.Prelude.{◌≡◌, ◌<◌, ◌^◌, [], IfOk, IfErr, Ok, Err, Some, length, map, zip};
ghost use Rattle.cv_keys.specs.Places.{Place, PlaceInterval};
ghost use Rattle.cv_keys.specs.Ranges.{lower_end, upper_end, range_interval};
ghost use Rattle.cv_values.specs.Trees.{tree};
ghost use Rattle.fn_code.specs.Operands.{popped};
ghost use Rattle.fn_code.specs.Steps.{on_top, is_limit, limit_in, limit_on, under_limit, reads, scans};
ghost use Rattle.fn_tree.specs.Course.{scan_rows};
ghost use Rattle.fn_tree.specs.Reading.{equals_of, lower_of, upper_of, bounded};
ghost use Rattle.fn_vm.specs.Moves.{Moves};
ghost use Rattle.fn_vm.specs.Scans.{AreBytes, Leave};
ghost use Rattle.fn_vm.specs.Views.{state_view, terms_view, went};

use crate::run::{Run, Terms};
use crate::stop::Stop;
use cv_keys::{Bound, Interval, Range};
use cv_values::{Memory, Val, Vals};
use fn_tree::{Ask, CompareOp, Outcome};
use std::alloc::Global;

// How many rows to take, where it isn't above the greatest number of 32 bits; or why it is none.
fn limit_in(v: &Val) -> Result<Option<u32>, &'static str>
    ensures ok { IfOk result (λ limit. limit_in (tree v.now) ≡ Ok limit) }
    ensures err { IfErr result (λ why. limit_in (tree v.now) ≡ Err why.now) }
{
    match v {
        Val::Int(n) if *n < 0 => Err("OutOfRange"),
        Val::Int(n) => Ok(u32::try_from(*n).ok()),
        _ => Err("TypeError"),
    }
}

// The values that the first fields are equal to.
fn equals_of(alloc: Global, ops: &[CompareOp], values: &[Val]) -> Result<Vals, Memory>
    ensures { IfOk result (λ vs. map Some vs ≡ equals_of (zip ops.now (map tree values.now))) }
{
    let mut equals = Vals::new(alloc);
    let mut rest = values;
    for op in ops {
        let Some((v, more)) = rest.split_first() else {
            return Ok(equals);
        };
        match op {
            CompareOp::Equal => equals.push(v.copy(alloc)?)?,
            _ => {}
        }
        rest = more;
    }
    Ok(equals)
}

// The lower bound, if there is one.
fn lower_of(alloc: Global, ops: &[CompareOp], values: &[Val]) -> Result<Bound, Memory>
    ensures { IfOk result (λ b. (p : Place) → lower_end p b ≡ lower_of p (zip ops.now (map tree values.now))) }
{
    let mut rest = values;
    for op in ops {
        let Some((v, more)) = rest.split_first() else {
            return Ok(Bound::None);
        };
        match op {
            CompareOp::Greater => return Ok(Bound::Excluding(v.copy(alloc)?)),
            CompareOp::GreaterEqual => return Ok(Bound::Including(v.copy(alloc)?)),
            _ => {}
        }
        rest = more;
    }
    Ok(Bound::None)
}

// The upper bound, if there is one.
fn upper_of(alloc: Global, ops: &[CompareOp], values: &[Val]) -> Result<Bound, Memory>
    ensures { IfOk result (λ b. (p : Place) → upper_end p b ≡ upper_of p (zip ops.now (map tree values.now))) }
{
    let mut rest = values;
    for op in ops {
        let Some((v, more)) = rest.split_first() else {
            return Ok(Bound::None);
        };
        match op {
            CompareOp::Less => return Ok(Bound::Excluding(v.copy(alloc)?)),
            CompareOp::LessEqual => return Ok(Bound::Including(v.copy(alloc)?)),
            _ => {}
        }
        rest = more;
    }
    Ok(Bound::None)
}

// What the bounds leave of an index.
fn range_of(
    alloc: Global,
    table: u16,
    index: u16,
    ops: &[CompareOp],
    values: &[Val],
) -> Result<Range, Memory>
    ensures { IfOk result (λ r. range_interval r ≡ bounded table index (zip ops.now (map tree values.now))) }
{
    Ok(Range {
        table: u32::from(table),
        index: u32::from(index),
        equal: equals_of(alloc, ops, values)?,
        lower: lower_of(alloc, ops, values)?,
        upper: upper_of(alloc, ops, values)?,
    })
}

impl Run {
    // The limit on top, where there is to be one; or why it is none.
    #[tactic(auto, using(crate::proofs::Scanning::no_limit, crate::proofs::Scanning::limit_first))]
    fn limit_on(&self, limited: bool) -> Result<Option<u32>, &'static str>
        ensures ok { IfOk result (λ limit. limit_on limited self.now.frame.stack ≡ Ok limit) }
        ensures err { IfErr result (λ why. limit_on limited self.now.frame.stack ≡ Err why.now) }
    {
        if !limited {
            return Ok(None);
        }
        match self.frame.stack.peek(0) {
            None => Err("TypeError"),
            Some(v) => limit_in(v),
        }
    }

    /// The top has to be a number of rows, and stays.
    #[tactic(auto, using(crate::proofs::Scanning::limit_kept))]
    pub fn as_limit(&mut self) -> Result<Option<Outcome>, Memory>
        requires { self.old.frame.at < 2 ^ 64 }
        ensures { IfOk result (λ o. on_top (state_view self.old) (λ v stack. is_limit (state_view self.old) v stack (limit_in v)) self.old.frame.stack ≡ went o (state_view self.new)) }
    {
        match self.limit_on(true) {
            Err(why) => self.fail(why),
            Ok(_limit) => {
                self.frame.at += 1;
                Ok(None)
            }
        }
    }

    // The interval that the bounds on the stack leave, where there are as many values.
    fn interval_on(
        &self,
        table: u16,
        index: u16,
        ops: &[CompareOp],
        limited: bool,
    ) -> Result<Option<Interval>, Memory>
        ensures { IfOk result (λ i. Leave table index ops.now (popped (length ops.now) [] (under_limit limited self.now.frame.stack)) i) }
    {
        let Some(values) = self.frame.stack.under(usize::from(limited), ops.len()) else {
            return Ok(None);
        };
        let range = range_of(self.alloc, table, index, ops, values)?;
        Ok(Some(range.interval(self.alloc)?))
    }

    // Asks for the rows of an interval.
    fn ask_rows(
        &mut self,
        terms: &Terms,
        interval: Interval,
        desc: bool,
        limit: Option<u32>,
    ) -> Result<Option<Stop>, Memory>
        ensures { IfOk result (λ stop. (p : PlaceInterval) → AreBytes p interval → Moves (reads (terms_view terms.now) (state_view self.old) (scan_rows p desc limit)) stop (state_view self.new)) }
    {
        match self.question(terms) {
            None => self.stop("RangeLimit"),
            Some(left) => Ok(Some(Stop::Ask(Ask::Scan {
                interval,
                desc,
                limit,
                left,
            }))),
        }
    }

    /// Asks for the rows of an index, between the bounds on the stack, up to the limit over them.
    pub fn scan(
        &mut self,
        terms: &Terms,
        table: u16,
        index: u16,
        bounds: &[CompareOp],
        desc: bool,
        limited: bool,
    ) -> Result<Option<Stop>, Memory>
        ensures { IfOk result (λ stop. Moves (scans (terms_view terms.now) (state_view self.old) table index bounds.now desc limited self.old.frame.stack) stop (state_view self.new)) }
    {
        let limit = match self.limit_on(limited) {
            Err(why) => return self.stop(why),
            Ok(limit) => limit,
        };
        let Some(interval) = self.interval_on(table, index, bounds, limited)? else {
            return self.stop("TypeError");
        };
        self.ask_rows(terms, interval, desc, limit)
    }
}
