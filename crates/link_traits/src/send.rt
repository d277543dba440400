//! Whole pieces over a link.
ghost use Rattle.link_traits.specs.LinkCalls.{SendsAll};

use crate::link::Link;
use outside_traits::Failed;

/// Writes all of `bytes`, and makes no call where there are none. After `Failed` a front of them was written.
pub fn send_all<L: Link>(link: &mut L, bytes: &[u8]) -> Result<(), Failed>
    ensures sends { SendsAll (L.link link.old) (L.link link.new) result bytes.now }
{
    let mut rest = bytes;
    while !rest.is_empty() {
        match link.write(rest) {
            Ok(taken) => rest = &rest[taken..],
            Err(failed) => return Err(failed),
        }
    }
    Ok(())
}
