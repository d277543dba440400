//! The bytes of a piece that belong to an unfinished frame.
ghost use Rattle.std.specs.Prelude.{◌≡◌, ◌+◌, ◌-◌, ◌≤◌, ◌++◌, min, length, take, vec_len, vec_capacity};
ghost use Rattle.wire_frames.specs.Frames.{front_of, short};
ghost use Rattle.wire_frames.specs.Filling.{length_at, Fills};

use crate::limits::{LENGTH_BYTES, MAX_FRAME_BYTES};

// What a frame is with the bytes of a piece behind it.
pub(crate) enum Filled {
    // Not whole; the whole piece was added.
    Short,
    // Whole; so many bytes of the piece were added.
    Whole { taken: usize },
    // Its length is above the limit.
    Long,
}

// Adds the bytes of the piece that belong to the frame, each once.
pub(crate) fn fill_frame(frame: &mut Vec<u8>, piece: &[u8]) -> Filled
    requires unfinished { front_of frame.old.items ≡ short }
    requires room { LENGTH_BYTES + MAX_FRAME_BYTES ≤ vec_capacity frame.old }
    ensures fills { Fills frame.old.items frame.new.items piece.now result }
    ensures room { vec_capacity frame.old ≤ vec_capacity frame.new }
{
    let front = fill_to(frame, LENGTH_BYTES, piece);
    if frame.len() < LENGTH_BYTES {
        return Filled::Short;
    }
    let size = length_at(frame);
    if size > MAX_FRAME_BYTES {
        return Filled::Long;
    }
    let more = fill_to(frame, LENGTH_BYTES + size, &piece[front..]);
    if frame.len() < LENGTH_BYTES + size {
        return Filled::Short;
    }
    Filled::Whole {
        taken: front + more,
    }
}

// Adds bytes of the piece until the frame has so many, and gives the number added.
fn fill_to(frame: &mut Vec<u8>, size: usize, piece: &[u8]) -> usize
    requires room { size ≤ vec_capacity frame.old }
    ensures taken { result ≡ min (length piece.now) (size - length frame.old.items) }
    ensures items { frame.new.items ≡ frame.old.items ++ take result piece.now }
    ensures room { vec_capacity frame.old ≤ vec_capacity frame.new }
{
    let taken = piece.len().min(size.saturating_sub(frame.len()));
    // There is room, so no memory is asked for.
    let _ = frame.extend_from_slice(&piece[..taken]);
    taken
}

// The length that stands in front.
fn length_at(frame: &[u8]) -> usize
    requires { LENGTH_BYTES ≤ length frame.now }
    ensures { result ≡ length_at frame.now }
{
    frame[0] as usize + 256 * frame[1] as usize + 65_536 * frame[2] as usize
}
