//! Frames as bytes.
ghost use Rattle.std.specs.Prelude.{◌≡◌, ◌+◌, ◌≤◌, ◌↔◌, ℕ, List, length, take, drop, IsTrue, IfSome};
ghost use Rattle.std.specs.Int.{w32, w64, from_le_bytes};
ghost use Rattle.std.specs.Option.{option_map};
ghost use Rattle.oplog_file.specs.Frames.{check_of, front_of, frame_spelling};
ghost use Rattle.oplog_file.specs.Fronts.{frame_told, payload_in};

use crate::layout::{CHECK_BYTES, FRAME_HEAD_BYTES};
use blake2b_hash::hash256;
use oplog_form::MAX_ENTRY_BYTES;

/// What the head of a whole frame tells.
#[derive(Clone, Copy)]
pub(crate) struct Front {
    pub epoch: u64,
    pub number: u32,
    pub payload_len: usize,
}

/// The frame at the front of the bytes, where there is a whole one with at most `max` bytes of payload.
pub(crate) fn read_frame(max: usize, bytes: &[u8]) -> Option<Front>
    ensures told { front_of max bytes.now ≡ option_map (frame_told bytes.now) result }
    ensures within { IfSome result (λ front. FRAME_HEAD_BYTES + front.payload_len ≤ length bytes.now) }
    ensures few { IfSome result (λ front. front.payload_len ≤ max) }
{
    if bytes.len() < FRAME_HEAD_BYTES {
        return None;
    }
    let payload_len = u32_at(bytes, 0) as usize;
    if payload_len > max || payload_len > bytes.len() - FRAME_HEAD_BYTES {
        return None;
    }
    if !has_check(bytes, payload_len) {
        return None;
    }
    Some(Front {
        epoch: u64_at(bytes, 20),
        number: u32_at(bytes, 28),
        payload_len,
    })
}

// Whether a frame with so many bytes of payload has its check.
fn has_check(bytes: &[u8], payload_len: usize) -> bool
    requires { FRAME_HEAD_BYTES + payload_len ≤ length bytes.now }
    ensures { IsTrue result
        ↔ (take CHECK_BYTES (drop 4 bytes.now) ≡ check_of (take (12 + payload_len) (drop 20 bytes.now))) }
{
    let hash = hash256(&bytes[20..FRAME_HEAD_BYTES + payload_len]);
    bytes[4..4 + CHECK_BYTES] == hash[..CHECK_BYTES]
}

/// The number in four bytes from a place on.
pub(crate) fn u32_at(bytes: &[u8], at: usize) -> u32
    requires { at + 4 ≤ length bytes.now }
    ensures { result ≡ from_le_bytes w32 (take 4 (drop at bytes.now)) }
{
    let four = &bytes[at..at + 4];
    u32::from_le_bytes([four[0], four[1], four[2], four[3]])
}

fn u64_at(bytes: &[u8], at: usize) -> u64
    requires { at + 8 ≤ length bytes.now }
    ensures { result ≡ from_le_bytes w64 (take 8 (drop at bytes.now)) }
{
    let eight = &bytes[at..at + 8];
    u64::from_le_bytes([
        eight[0], eight[1], eight[2], eight[3], eight[4], eight[5], eight[6], eight[7],
    ])
}

/// Writes the head of a frame whose payload stands behind it.
pub(crate) fn seal(frame: &mut [u8], epoch: u64, number: u32, payload_len: usize)
    requires within { FRAME_HEAD_BYTES + payload_len ≤ length frame.old }
    requires few { payload_len ≤ MAX_ENTRY_BYTES }
    ensures sealed { take (FRAME_HEAD_BYTES + payload_len) frame.new ≡ frame_spelling (record {
      epoch = epoch;
      number = number;
      payload = payload_in payload_len frame.old;
    }) }
    ensures behind { drop FRAME_HEAD_BYTES frame.new ≡ drop FRAME_HEAD_BYTES frame.old }
    ensures size { length frame.new ≡ length frame.old }
{
    frame[20..28].copy_from_slice(&epoch.to_le_bytes());
    frame[28..FRAME_HEAD_BYTES].copy_from_slice(&number.to_le_bytes());
    let hash = hash256(&frame[20..FRAME_HEAD_BYTES + payload_len]);
    frame[4..20].copy_from_slice(&hash[..CHECK_BYTES]);
    frame[..4].copy_from_slice(&(payload_len as u32).to_le_bytes());
}
