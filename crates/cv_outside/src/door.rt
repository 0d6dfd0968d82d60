//! Where links come from, and where they go back to.
ghost use Rattle.std.specs.Prelude.{◌≡◌, ◌<◌, IfErr, IfOk};
ghost use Rattle.cv_outside.specs.Doors.{GivesNone, after_back, after_next};
ghost use Rattle.cv_outside.specs.Links.{IsUnused};

use crate::{Link, LinkFail};
use std::alloc::Global;

/// Gives a link for each client that comes.
pub trait Door {
    ghost use Rattle.cv_outside.specs.Doors.{Doorway};

    type Link: Link;

    /// How many links were given and given back, those that were given back, and how often it failed.
    ghost doorway: { Self → Doorway Self.Link };

    /// The link of the next client. It may wait for one.
    fn next(&mut self, alloc: Global) -> Result<Self::Link, LinkFail>
        ensures given { IfOk result (λ _. doorway self.new ≡ after_next (doorway self.old)) }
        ensures unused { IfOk result (λ link. IsUnused (Self.Link.wire link)) }
        ensures err { IfErr result (λ why. GivesNone (doorway self.old) (doorway self.new) why) };

    /// Takes back a link that it gave. It takes no memory.
    fn back(&mut self, link: Self::Link)
        requires { (doorway self.old).back < (doorway self.old).given }
        ensures { doorway self.new ≡ after_back (doorway self.old) link };
}
