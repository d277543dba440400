use outside_traits::Memory;
use std::alloc::Global;
use wire_frames::{FrameFault, Framer, Outbox};

// Where a framer ends that is fed what an outbox holds, and whether the body that was put comes out.
fn told_of_a_frame(alloc: Global) -> Result<(Result<usize, FrameFault>, bool), Memory> {
    let mut outbox = Outbox::new(alloc)?;
    let _ = outbox.put(b"\x03\x05");
    let mut framer = Framer::new(alloc)?;
    let end = framer.feed(outbox.bytes());
    Ok((end, framer.take() == Some(b"\x03\x05".as_slice())))
}

#[test]
fn a_frame_comes_across(rt: HostRuntime) {
    assert!(rt; told_of_a_frame(rt.alloc()) == Ok((Ok(5), true)));
}
