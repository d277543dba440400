//! What no call of a link changes.
ghost use Rattle.std.specs.Prelude.{ℕ, List, Result};
ghost use Rattle.std.specs.Io.KnownBytes.{Keeps};
ghost use Rattle.outside_traits.specs.declared.failed.Failed.{Failed};
ghost use Rattle.link_traits.specs.Links.{LinkView, Receives, Sends};
ghost use Rattle.link_traits.specs.LinkCalls.{bytes_of};

/// The bytes of a link, those that it gave and then those left in it, are the same behind each call, in whatever pieces
/// they are read. So behind a read at the end of a link its bytes are those that it gave.
pub fn bytes_stay()
    ensures reads { (old new : LinkView) (answer : Result ℕ Failed) (into : List ℕ)
        → Receives old new answer into → Keeps (bytes_of old) (bytes_of new) }
    ensures writes { (old new : LinkView) (answer : Result ℕ Failed) (piece : List ℕ)
        → Sends old new answer piece → Keeps (bytes_of old) (bytes_of new) }
{}
