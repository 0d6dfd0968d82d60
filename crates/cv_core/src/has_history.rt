use crate::the_core::Core;
use cv_store::HasHistory;

impl HasHistory for Core {
    ghost use Rattle.cv_core.specs.Cores.{program_of};

    ghost program = { program_of };

    ghost history = { λ c. c.log };

    fn history_len(&self) -> u64 {
        self.len()
    }
}
