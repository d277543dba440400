//! What links are dialled by.
ghost use Rattle.std.specs.Prelude.{IfOk};
ghost use Rattle.link_traits.specs.Dials.{DialView, HasOut, IsDialled, Dials, DialHangsUp};

use crate::link::Link;
use outside_traits::Failed;

/// Links to addresses. Who dials one hangs it up, whatever came of it: docs/MODEL.md, "Links".
pub trait Dial {
    type Link: Link + Drop;

    /// The links that were hung up and how many are out, where it tells, and its count of faults.
    ghost dial: { Self → DialView };

    /// A link to this address, `HOST:PORT`, with nothing read from it or written to it.
    /// `Failed` gives none, and comes only where the count of faults rose.
    fn dial(&mut self, address: &str) -> Result<Self::Link, Failed>
        ensures link { IfOk result (λ link. IsDialled (dial self.old) address.now (Self.Link.link link)) }
        ensures dials { Dials (dial self.old) (dial self.new) result };

    /// Takes back a link that it gave. The count of faults rises where the link's rose since it was dialled.
    fn hang_up(&mut self, link: Self::Link)
        requires out { HasOut (dial self.old).links }
        ensures hangs_up { DialHangsUp (dial self.old) (dial self.new) (Self.Link.link link) };
}
