//! What links from peers are accepted by.
ghost use Rattle.std.specs.Prelude.{IfOk};
ghost use Rattle.link_traits.specs.Dials.{ListenView, HasOut, Binds, IsAccepted, Accepts, ListenHangsUp};

use crate::link::Link;
use outside_traits::Failed;

/// Links from peers. Who accepts one hangs it up, whatever came of it: docs/MODEL.md, "Links".
pub trait Listen {
    type Link: Link + Send + Drop;

    /// The address that it is bound to, the links that were hung up and how many are out, where it tells, and its count
    /// of faults.
    ghost listen: { Self → ListenView };

    /// Binds it to this address, `HOST:PORT`. `Failed` leaves it bound as it was, and comes only where the count of
    /// faults rose.
    fn bind(&mut self, address: &str) -> Result<(), Failed>
        ensures binds { Binds (listen self.old) (listen self.new) address.now result };

    /// The next link from a peer, with nothing read from it or written to it.
    /// `Failed` gives none, and comes only where the count of faults rose.
    fn accept(&mut self) -> Result<Self::Link, Failed>
        ensures link { IfOk result (λ link. IsAccepted (listen self.old) (Self.Link.link link)) }
        ensures accepts { Accepts (listen self.old) (listen self.new) result };

    /// Takes back a link that it gave, and leaves its count of faults.
    fn hang_up(&mut self, link: Self::Link)
        requires out { HasOut (listen self.old).links }
        ensures hangs_up { ListenHangsUp (listen self.old) (listen self.new) (Self.Link.link link) };
}
