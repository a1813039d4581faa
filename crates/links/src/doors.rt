//! Where links come in.

ghost use Rattle.std.specs.Prelude.{◌≡◌, ℕ, List, IfOk, IfSome, OnErr};
ghost use Rattle.std.specs.declared.option.Option.{Option};
ghost use Rattle.octets.specs.Causes.{HasCause, each};
ghost use Rattle.links.specs.Doors.{with_last, Gives};
ghost use Rattle.links.specs.declared.link.Link.{Link};

use crate::Link;
use edge_io::{Failed, Sink, Source};

/// Where links come in, one after another.
pub trait Door {
    type Input: Source;

    type Output: Sink;

    /// The links that are still to come, where the door tells them.
    ghost waiting: { Self → Option (List (Link Self.Input Self.Output)) };

    /// The links that were handed back, in order, where the door tells them.
    ghost handed_back: { Self → Option (List (Link Self.Input Self.Output)) };

    /// How many calls failed. It never falls, and stands still at 2^64 - 1.
    ghost faults: { Self → ℕ };

    /// That a link is out which may be handed back.
    ghost is_out: { Self → Type 0 };

    /// The next link. None means that no link will come. `Failed` gives none.
    fn next(&mut self) -> Result<Option<Link<Self::Input, Self::Output>>, Failed>
        ensures given { IfOk result (λ link. Gives link (waiting self.old) (waiting self.new)) }
        ensures failed { OnErr result (waiting self.new ≡ waiting self.old) }
        ensures same { handed_back self.new ≡ handed_back self.old }
        ensures out { IfOk result (λ link. IfSome link (λ _. is_out self.new)) }
        ensures cause { HasCause each (faults self.old) (faults self.new) result };

    /// Takes back the link that it gave last, which is ended.
    fn done(&mut self, link: Link<Self::Input, Self::Output>)
        requires { is_out self.old }
        ensures back { handed_back self.new ≡ with_last (handed_back self.old) link }
        ensures same { waiting self.new ≡ waiting self.old }
        ensures quiet { faults self.new ≡ faults self.old };
}
