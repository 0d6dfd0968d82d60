//! What a pass of one queue knows, and the queue's rule. No value of `Hand` is made.
ghost use Rattle.std.specs.Prelude.{◌≡◌};

use crossbeam_queue::protocol::{Join, Lesson, Outcome, Protocol, Split};
use crossbeam_queue::{Pass, RuledArrayQueue};
use std::collections::LinkedList;

/// A connection with its number.
#[derive(Drop)]
pub struct Numbered<C> {
    pub number: u32,
    pub conn: C,
}

/// The parts of the right to know the whole, and what was put, put back and taken.
pub(crate) struct Hand<C> {
    pub(crate) parts: u64,
    pub(crate) put: LinkedList<Numbered<C>>,
    pub(crate) back: LinkedList<Numbered<C>>,
    pub(crate) taken: LinkedList<Numbered<C>>,
}

pub(crate) type Line<C> = RuledArrayQueue<Numbered<C>, Hand<C>, Even>;

pub(crate) type LinePass<C> = Pass<Numbered<C>, Hand<C>>;

/// What was put is what was taken and what the queue holds.
pub(crate) struct Even;

impl<C> Protocol<Numbered<C>, Hand<C>> for Even {
    ghost use Rattle.std.specs.Prelude.{[]};
    ghost use Rattle.conn_pool.specs.Hands.{Balanced, hand};

    ghost holds = { Balanced };

    ghost first = { hand 1024 [] [] [] };
}

pub(crate) struct Puts;

impl<C> Outcome<Numbered<C>, Hand<C>> for Puts {
    ghost use Rattle.conn_pool.specs.Hands.{after_put};

    ghost then = { λ v x w. w ≡ after_put v x };
}

impl<C> Lesson<Numbered<C>, Hand<C>> for Puts {
    ghost use Rattle.std.specs.Prelude.{⊤};

    ghost fact = { λ v items. ⊤ };
}

pub(crate) struct PutsBack;

impl<C> Outcome<Numbered<C>, Hand<C>> for PutsBack {
    ghost use Rattle.conn_pool.specs.Hands.{after_back};

    ghost then = { λ v x w. w ≡ after_back v x };
}

impl<C> Lesson<Numbered<C>, Hand<C>> for PutsBack {
    ghost use Rattle.std.specs.Prelude.{⊤};

    ghost fact = { λ v items. ⊤ };
}

pub(crate) struct Takes;

impl<C> Outcome<Numbered<C>, Hand<C>> for Takes {
    ghost use Rattle.conn_pool.specs.Hands.{after_take};

    ghost then = { λ v x w. w ≡ after_take v x };
}

impl<C> Lesson<Numbered<C>, Hand<C>> for Takes {
    ghost use Rattle.conn_pool.specs.Hands.{Total};

    ghost fact = { Total };
}

pub(crate) struct Cut;

impl<C> Split<Hand<C>> for Cut {
    ghost use Rattle.std.specs.Prelude.{[], ◌-◌};
    ghost use Rattle.conn_pool.specs.Hands.{hand};

    ghost left = { λ v. hand (v.parts - 1) v.put v.back v.taken };

    ghost right = { λ v. hand 1 [] [] [] };
}

impl<C> Join<Hand<C>> for Cut {
    ghost use Rattle.std.specs.Prelude.{[]};
    ghost use Rattle.conn_pool.specs.Hands.{hand, both};

    ghost both = { both };

    ghost spent = { hand 0 [] [] [] };
}
