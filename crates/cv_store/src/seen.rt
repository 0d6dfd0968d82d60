//! What a store and a program mean, to be kept in proofs alone.
ghost use Rattle.std.specs.Prelude.{◌≡◌};
ghost use Rattle.std.specs.Borrow.{ftrue};
ghost use Rattle.cv_store.specs.Codes.{history_code, module_code};
ghost use Rattle.fn_tree.specs.History.{History};
ghost use Rattle.fn_tree.specs.declared.syntax.Module.{Module};

use crate::job::Job;
use crate::store::Store;
use fn_tree::Module;
use std::marker::Model;

/// The entries that a store had seen. It takes no bytes: clauses alone read it.
#[derive(Drop)]
pub struct Seen {
    pub ghost history: { History } by { history_code },
}

impl Model for Seen {
    ghost also_owns = { λ _. ftrue };
}

impl Seen {
    pub fn of<S: Store>(_store: &S) -> Seen
        ensures { result.history ≡ (S.stands _store.now).seen }
    {
        Seen {}
    }
}

/// The module of a job's program. It takes no bytes: clauses alone read it.
#[derive(Drop)]
pub struct Meant {
    pub ghost tree: { Module } by { module_code },
}

impl Model for Meant {
    ghost also_owns = { λ _. ftrue };
}

impl Meant {
    pub fn of<J: Job>(_program: &J::Prog) -> Meant
        ensures { result.tree ≡ J.tree _program.now }
    {
        Meant {}
    }

    pub fn of_module(_module: &Module) -> Meant
        ensures { result.tree ≡ _module.now }
    {
        Meant {}
    }
}
