//! A connection to a client: texts come from it, and texts go to it.
ghost use Rattle.std.specs.Prelude.{◌≡◌, IfErr, IfOk, OnOk};
ghost use Rattle.cv_outside.specs.declared.link.LinkFail.TheVariants as fail;
ghost use Rattle.cv_outside.specs.Links.{Fails, IsLater, Receives, Sends};

use crate::Failed;
use cv_values::{Memory, Text};
use std::alloc::Global;

/// What a link gives: a text, nothing yet, or nothing any more.
#[derive(Debug, Drop)]
pub enum Got {
    Text(Text),
    Quiet,
    Closed,
}

/// Why a link or a door gave nothing.
#[derive(Clone, Copy, Debug, PartialEq, Eq)]
pub enum LinkFail {
    Failed,
    Memory,
}

impl From<Failed> for LinkFail {
    ghost from_gives = { λ _ why. why ≡ fail.Failed };

    fn from(_failed: Failed) -> LinkFail {
        LinkFail::Failed
    }
}

impl From<Memory> for LinkFail {
    ghost from_gives = { λ _ why. why ≡ fail.Memory };

    fn from(_memory: Memory) -> LinkFail {
        LinkFail::Memory
    }
}

/// One connection to a client.
pub trait Link {
    ghost use Rattle.cv_outside.specs.Links.{Wire};

    /// What is to come, what passed, and how often it was quiet, closed and at fault.
    ghost wire: { Self → Wire };

    /// The next text, if one has come. It doesn't wait.
    fn recv(&mut self, alloc: Global) -> Result<Got, LinkFail>
        ensures later { IsLater (wire self.old) (wire self.new) }
        ensures ok { IfOk result (λ got. Receives (wire self.old) (wire self.new) got) }
        ensures err { IfErr result (λ why. Fails (wire self.old) (wire self.new) why) };

    /// Sends a text. It may wait until the text is gone.
    fn send(&mut self, alloc: Global, text: &Text) -> Result<(), LinkFail>
        ensures later { IsLater (wire self.old) (wire self.new) }
        ensures ok { OnOk result (Sends (wire self.old) (wire self.new) text.now) }
        ensures err { IfErr result (λ why. Fails (wire self.old) (wire self.new) why) };
}
