ghost use Rattle.std.specs.Prelude.{◌≡◌, length};

/// What has the log of a program's entries.
pub trait HasHistory {
    ghost use Rattle.fn_tree.specs.History.{History};
    ghost use Rattle.fn_tree.specs.SyntaxTree.{ModuleTree};

    /// The module that the program means.
    ghost program: { Self → ModuleTree };

    /// The entries of the log, in order.
    ghost history: { Self → History };

    /// How many entries the log has.
    fn history_len(&self) -> u64
        ensures { result ≡ length (history self.now) };
}
