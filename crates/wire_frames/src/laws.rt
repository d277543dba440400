//! Laws of all streams, however they are cut into pieces.
ghost use Rattle.std.specs.Prelude.{◌≡◌, ℕ, List};
ghost use Rattle.std.specs.List.{flat_map, concat, AllByRecursion};
ghost use Rattle.wire_frames.specs.Frames.{Stream, frame_spelling, frames_of, all_frames, Fits, IsByte, HasFrames};
ghost use Rattle.wire_frames.specs.Framing.{fresh_framer};
ghost use Rattle.wire_frames.specs.Pieces.{feed_pieces, outcome};

/// A stream that is fed in pieces, whatever they are, each frame taken when it is whole and the rest of its piece fed
/// on, gives the frames of the joined pieces, and ends as they end.
pub fn frames_however_cut()
    ensures { (pieces : List (List ℕ))
        → outcome (feed_pieces fresh_framer pieces) ≡ frames_of (concat pieces) }
{}

/// The frames of a stream of bytes are spelled in it, one behind the other, and it ends so behind them.
pub fn frames_are_spelled()
    ensures { (bytes : List ℕ) → AllByRecursion IsByte bytes → HasFrames 0 bytes (frames_of bytes) }
{}

/// A stream in which frames are spelled, one behind the other, and which ends so behind them, has these frames and no
/// others.
pub fn spelled_are_frames()
    ensures { (bytes : List ℕ) (stream : Stream)
        → HasFrames 0 bytes stream → frames_of bytes ≡ stream }
{}

/// Frames that are spelled one behind the other are the frames of that stream, which ends between frames.
pub fn spellings_have_their_frames()
    ensures { (bodies : List (List ℕ)) → AllByRecursion Fits bodies
        → frames_of (flat_map frame_spelling bodies) ≡ all_frames bodies }
{}

/// What an outbox holds after some puts, fed in pieces, whatever they are, gives the bodies that were put.
pub fn frames_come_across()
    ensures { (bodies pieces : List (List ℕ)) → AllByRecursion Fits bodies
        → concat pieces ≡ flat_map frame_spelling bodies
        → outcome (feed_pieces fresh_framer pieces) ≡ all_frames bodies }
{}
