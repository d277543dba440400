//! Frames that are to be written.
ghost use Rattle.std.specs.Prelude.{◌≡◌, ◌+◌, ◌<◌, ◌≤◌, ◌↔◌, ℕ, List, [], ◌∷◌, ◌++◌, length, vec_capacity, IsErr, IfOk, OnOk, OnErr};
ghost use Rattle.std.specs.List.{flat_map};
ghost use Rattle.wire_frames.specs.Frames.{frame_spelling};

use crate::limits::{LENGTH_BYTES, MAX_FRAME_BYTES, OUTBOX_BYTES};
use outside_traits::Memory;
use std::alloc::Global;
use std::marker::Model;

/// Fewer bytes are free than the frame has.
#[derive(Clone, Copy, Debug, PartialEq, Eq)]
pub struct Full;

/// Frames, one behind the other, of at most `OUTBOX_BYTES` bytes.
#[derive(Drop)]
pub struct Outbox {
    bytes: Vec<u8>,
}

impl Model for Outbox {
    ghost use Rattle.std.specs.Prelude.{ℕ, List, ◌≤◌, length, vec_capacity};
    ghost use Rattle.wire_frames.specs.declared.limits.TheConstants.{OUTBOX_BYTES};

    ghost Value = { List ℕ };

    ghost view = { λ outbox. outbox.bytes.items };

    ghost invariant = { λ outbox. (length outbox.bytes.items ≤ OUTBOX_BYTES)
        × (OUTBOX_BYTES ≤ vec_capacity outbox.bytes) };
}

impl Outbox {
    /// An outbox with no frame. It takes all its memory here.
    pub fn new(alloc: Global) -> Result<Outbox, Memory>
        ensures { IfOk result (λ outbox. outbox ≡ []) }
    {
        match Vec::with_capacity(alloc, OUTBOX_BYTES) {
            Ok(bytes) => Ok(Outbox { bytes }),
            Err(_) => Err(Memory),
        }
    }

    /// Adds the frame of this body behind the others. `Full` changes nothing.
    pub fn put(&mut self, body: &[u8]) -> Result<(), Full>
        requires { length body.now ≤ MAX_FRAME_BYTES }
        ensures ok { OnOk result (self.new ≡ self.old ++ frame_spelling body.now) }
        ensures frames { OnOk result ((bodies : List (List ℕ))
            → self.old ≡ flat_map frame_spelling bodies
            → self.new ≡ flat_map frame_spelling (bodies ++ body.now ∷ [])) }

        ensures full { IsErr result
            ↔ (OUTBOX_BYTES < length self.old + length (frame_spelling body.now)) }
        ensures err { OnErr result (self.new ≡ self.old) }
    {
        if self.free() < LENGTH_BYTES + body.len() {
            return Err(Full);
        }
        put_frame(&mut self.bytes, body);
        Ok(())
    }

    /// The frames, as they are to be written.
    pub fn bytes(&self) -> &[u8]
        ensures { result.now ≡ self.now }
    {
        self.bytes.as_slice()
    }

    /// Takes out every frame.
    pub fn clear(&mut self)
        ensures { self.new ≡ [] }
    {
        self.bytes.clear();
    }

    /// How many bytes are free.
    pub fn free(&self) -> usize
        ensures { length self.now + result ≡ OUTBOX_BYTES }
    {
        OUTBOX_BYTES - self.bytes.len()
    }
}

// Adds a frame for which there is room, so no memory is asked for.
fn put_frame(bytes: &mut Vec<u8>, body: &[u8])
    requires body { length body.now ≤ MAX_FRAME_BYTES }
    requires room { length bytes.old.items + length (frame_spelling body.now)
        ≤ vec_capacity bytes.old }
    ensures bytes { bytes.new.items ≡ bytes.old.items ++ frame_spelling body.now }
    ensures room { vec_capacity bytes.old ≤ vec_capacity bytes.new }
{
    let length = (body.len() as u32).to_le_bytes();
    let _ = bytes.extend_from_slice(&length[..LENGTH_BYTES]);
    let _ = bytes.extend_from_slice(body);
}
