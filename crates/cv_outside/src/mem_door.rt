//! A door in memory, whose calls can be made to fail.
ghost use Rattle.std.specs.Prelude.{◌≡◌, ◌↔◌, ◌<◌, [], ◌∷◌, ◌++◌, Err, IfErr, IfOk};
ghost use Rattle.cv_outside.specs.Doors.{GivesNone, after_next};
ghost use Rattle.cv_outside.specs.Links.{IsUnused};
ghost use Rattle.cv_outside.specs.MemDoors.{AllUnused, AnswersNext, IsToFail, door_way, opened};
ghost use Rattle.cv_outside.specs.MemLinks.{link_wire};
ghost use Rattle.cv_outside.specs.declared.link.LinkFail.TheVariants as fail;

use crate::plan::Plan;
use crate::{Door, LinkFail, MemLink};
use std::alloc::Global;
use std::collections::VecDeque;
use std::marker::Model;

/// A door that has its links in memory. Contracts see the links left, those given back and the
/// counts.
#[derive(Drop)]
pub struct MemDoor {
    links: VecDeque<MemLink>,
    back: Vec<MemLink>,
    given: usize,
    plan: Plan,
}

impl Model for MemDoor {
    ghost use Rattle.std.specs.Prelude.{length, vec_capacity};
    ghost use Rattle.cv_outside.specs.MemDoors.{AllUnused, DoorState, HasRoom};

    ghost Value = { DoorState };

    ghost view = { λ d. record { links = d.links.items; given = d.given; back = d.back.items; calls = d.plan } };

    ghost invariant = { λ d. AllUnused d.links.items × HasRoom d.given (length d.links.items) (length d.back.items) (vec_capacity d.back) };
}

impl MemDoor {
    /// It gives these links in turn. The calls of `next` with these numbers, counted from 0, are to fail.
    pub fn new(alloc: Global, links: Vec<MemLink>, fails: Vec<u64>) -> MemDoor
        requires { AllUnused links.items }
        ensures { result ≡ opened links.items fails.items }
    {
        MemDoor {
            links: VecDeque::from(links),
            back: Vec::new(alloc),
            given: 0,
            plan: Plan::new(fails),
        }
    }

    /// The links that were given back, in the order in which they came.
    pub fn given_back(&self) -> &[MemLink]
        ensures { result.now ≡ self.now.back }
    {
        &self.back
    }
}

impl Door for MemDoor {
    ghost use Rattle.cv_outside.specs.MemDoors.{door_way};

    type Link = MemLink;

    ghost doorway = { door_way };

    /// Fails exactly at the calls listed, and where no link is left. It makes the room in which the link
    /// is given back.
    fn next(&mut self, _alloc: Global) -> Result<MemLink, LinkFail>
        ensures given { IfOk result (λ _. door_way self.new ≡ after_next (door_way self.old)) }
        ensures unused { IfOk result (λ link. IsUnused (link_wire link)) }
        ensures err { IfErr result (λ why. GivesNone (door_way self.old) (door_way self.new) why) }
        ensures listed { (result ≡ Err fail.Failed) ↔ IsToFail self.old }
        ensures answer { AnswersNext self.old self.new result }
    {
        self.plan.call()?;
        if self.links.is_empty() {
            self.plan.fault();
            return Err(LinkFail::Failed);
        }
        let more = self.given - self.back.len() + 1;
        if self.back.reserve(more).is_err() {
            return Err(LinkFail::Memory);
        }
        let Some(link) = self.links.pop_front() else {
            unreachable!()
        };
        self.given += 1;
        Ok(link)
    }

    fn back(&mut self, link: MemLink)
        requires { (door_way self.old).back < (door_way self.old).given }
        ensures { self.new ≡ record self.old { back = self.old.back ++ link ∷ [] } }
    {
        self.back.push_reserved(link);
    }
}
