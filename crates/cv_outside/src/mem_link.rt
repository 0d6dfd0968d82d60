//! A link in memory, whose calls can be made to fail.
ghost use Rattle.std.specs.Prelude.{◌≡◌, ◌↔◌, [], ◌∷◌, ◌++◌, true, Contains, Err, IfErr, IfOk, MatchOption, OnErr, OnOk};
ghost use Rattle.cv_outside.specs.Links.{Fails, IsLater, Receives, Sends};
ghost use Rattle.cv_outside.specs.MemLinks.{AnswersRecv, AnswersSend, TakesText, empty_link, link_wire};
ghost use Rattle.cv_outside.specs.Traces.{sent_texts};
ghost use Rattle.cv_outside.specs.declared.link.LinkFail.TheVariants as fail;

use crate::plan::Plan;
use crate::trace::Trace;
use crate::{Got, Link, LinkFail};
use cv_values::{Memory, Text};
use std::alloc::Global;
use std::collections::VecDeque;
use std::marker::Model;

/// A link that has its texts in memory. Contracts see the texts to come, whether it closes behind
/// them, the trace and the counts.
#[derive(Drop)]
pub struct MemLink {
    coming: VecDeque<Text>,
    closing: bool,
    sent: Vec<Text>,
    trace: Trace,
    quiets: u64,
    closings: u64,
    plan: Plan,
}

impl Model for MemLink {
    ghost use Rattle.std.specs.Prelude.{◌≡◌};
    ghost use Rattle.cv_outside.specs.MemLinks.{LinkState};
    ghost use Rattle.cv_outside.specs.Traces.{sent_texts};

    ghost Value = { LinkState };

    ghost view = { λ l. record { texts = l.coming.items; closing = l.closing; trace = l.trace.said; quiets = l.quiets; closings = l.closings; calls = l.plan } };

    ghost invariant = { λ l. l.sent.items ≡ sent_texts l.trace.said };
}

impl MemLink {
    /// No text is to come. The calls of `recv` and `send` with these numbers, counted from 0, are to fail.
    pub fn new(alloc: Global, fails: Vec<u64>) -> MemLink
        ensures { result ≡ empty_link fails.items }
    {
        MemLink {
            coming: VecDeque::new(alloc),
            closing: false,
            sent: Vec::new(alloc),
            trace: Trace::new(),
            quiets: 0,
            closings: 0,
            plan: Plan::new(fails),
        }
    }

    /// Adds a text to those to come.
    pub fn push(&mut self, text: Text) -> Result<(), Memory>
        ensures ok { OnOk result (self.new ≡ record self.old { texts = self.old.texts ++ text ∷ [] }) }
        ensures err { OnErr result (self.new ≡ self.old) }
    {
        match self.coming.push_back(text) {
            Ok(()) => Ok(()),
            Err(_) => Err(Memory),
        }
    }

    /// `recv` answers `Closed` in place of `Quiet` from now on.
    pub fn close(&mut self)
        ensures { self.new ≡ record self.old { closing = true } }
    {
        self.closing = true;
    }

    /// The texts that were sent, in order.
    pub fn sent(&self) -> &[Text]
        ensures { result.now ≡ sent_texts self.now.trace }
    {
        &self.sent
    }

    // The first text to come leaves, and stands in the trace.
    #[tactic(auto, using(crate::proofs::Sent::sent_texts_taken))]
    fn take(&mut self) -> Option<Text>
        ensures { MatchOption result ((self.old.texts ≡ []) × (self.new ≡ self.old)) (λ text. TakesText self.old self.new text) }
    {
        let text = self.coming.pop_front()?;
        self.trace = Trace::with_taken(&self.trace, &text);
        Some(text)
    }
}

impl Link for MemLink {
    ghost use Rattle.cv_outside.specs.MemLinks.{link_wire};

    ghost wire = { link_wire };

    /// Fails exactly at the calls listed, and takes no memory.
    fn recv(&mut self, _alloc: Global) -> Result<Got, LinkFail>
        ensures later { IsLater (link_wire self.old) (link_wire self.new) }
        ensures ok { IfOk result (λ got. Receives (link_wire self.old) (link_wire self.new) got) }
        ensures err { IfErr result (λ why. Fails (link_wire self.old) (link_wire self.new) why) }
        ensures listed { (result ≡ Err fail.Failed) ↔ Contains self.old.calls.fails self.old.calls.made }
        ensures memory { result ≡ Err fail.Memory → ⊥ }
        ensures answer { AnswersRecv self.old self.new result }
    {
        self.plan.call()?;
        if let Some(text) = self.take() {
            return Ok(Got::Text(text));
        }
        if self.closing {
            self.closings = self.closings.saturating_add(1);
            return Ok(Got::Closed);
        }
        self.quiets = self.quiets.saturating_add(1);
        Ok(Got::Quiet)
    }

    /// Fails exactly at the calls listed.
    #[tactic(auto, using(crate::proofs::Sent::sent_texts_sent))]
    fn send(&mut self, alloc: Global, text: &Text) -> Result<(), LinkFail>
        ensures later { IsLater (link_wire self.old) (link_wire self.new) }
        ensures ok { OnOk result (Sends (link_wire self.old) (link_wire self.new) text.now) }
        ensures err { IfErr result (λ why. Fails (link_wire self.old) (link_wire self.new) why) }
        ensures listed { (result ≡ Err fail.Failed) ↔ Contains self.old.calls.fails self.old.calls.made }
        ensures answer { AnswersSend self.old self.new text.now result }
    {
        self.plan.call()?;
        let copy = text.copy(alloc)?;
        if self.sent.push(copy).is_err() {
            return Err(LinkFail::Memory);
        }
        self.trace = Trace::with_sent(&self.trace, text);
        Ok(())
    }
}
