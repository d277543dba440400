//! Frames of a stream of bytes (docs/PROTOCOL.md): a framer takes a stream in pieces, however it was cut, and gives the
//! body of each whole frame; an outbox collects frames to be written. Both take their memory when they are made.
#![tactic(auto)]

mod fill;
mod framer;
mod laws;
mod limits;
mod outbox;

pub use framer::{FrameFault, Framer};
pub use laws::{
    frames_are_spelled, frames_come_across, frames_however_cut, spelled_are_frames,
    spellings_have_their_frames,
};
pub use limits::{LENGTH_BYTES, MAX_FRAME_BYTES, OUTBOX_BYTES};
pub use outbox::{Full, Outbox};
