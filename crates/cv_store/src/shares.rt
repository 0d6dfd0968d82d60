ghost use Rattle.std.specs.Prelude.{◌≡◌, length};
ghost use Rattle.cv_store.specs.Sharing.{HaveOneLog, IsFork, HasMet};

use crate::store::Store;

/// A store that others share: it can be made two, and it can be told of what another has seen.
pub trait Shares: Store {
    /// A second store that has seen as much. The first stays as it is.
    fn fork(&mut self) -> Self
        ensures first { Self.stands self.new ≡ Self.stands self.old }
        ensures second { IsFork (Self.stands self.old) (Self.stands result) };

    /// Both have then seen the same, and it tells how many entries that are. It is no step of either.
    fn meet(&mut self, other: &mut Self) -> u64
        requires { HaveOneLog (Self.stands self.old) (Self.stands other.old) }
        ensures first { HasMet (Self.stands self.old) (Self.stands self.new) (Self.stands self.new).seen }
        ensures second { HasMet (Self.stands other.old) (Self.stands other.new) (Self.stands self.new).seen }
        ensures count { result ≡ length (Self.stands self.new).seen };
}
