//! A framer: a stream of bytes that comes in pieces, frame by frame.
ghost use Rattle.std.specs.Prelude.{◌≡◌, ◌+◌, ◌^◌, ◌<◌, ◌≤◌, ℕ, List, [], ◌∷◌, ◌++◌, length, IfOk, IfSome, IsSome, IsNone};
ghost use Rattle.wire_frames.specs.Framing.{FramerView, fresh_framer, feed, is_between, whole_body, after_take, HasTaken, taken_part};

use crate::fill::{Filled, fill_frame};
use crate::limits::{LENGTH_BYTES, MAX_FRAME_BYTES};
use outside_traits::Memory;
use std::alloc::Global;
use std::marker::Model;

/// The stream isn't one of frames.
#[derive(Clone, Copy, Debug, PartialEq, Eq)]
pub enum FrameFault {
    /// Where a frame begins, at this place of the stream, stands a length above `MAX_FRAME_BYTES`.
    TooLong { at: u64 },
}

// What the kept bytes are: an unfinished frame, or a whole one that is to be taken; or a length was above the limit.
#[derive(Clone, Copy)]
enum Stage {
    Open,
    Whole,
    Failed { at: u64 },
}

/// A stream of frames, of which one at a time is kept.
#[derive(Drop)]
pub struct Framer {
    buffer: Vec<u8>,
    // How many of the buffer's bytes are kept: none of a frame that was taken.
    kept: usize,
    // How many bytes were taken.
    place: u64,
    stage: Stage,
}

impl Model for Framer {
    ghost use Rattle.std.specs.Prelude.{take, vec_capacity};
    ghost use Rattle.wire_frames.specs.Framing.{FramerView};
    ghost use Rattle.wire_frames.specs.Stages.{state_of, IsSettled};

    ghost Value = { FramerView };

    ghost view = { λ f. record {
      place = f.place;
      state = state_of f.stage (take f.kept f.buffer.items);
    } };

    ghost invariant = { λ f.
        IsSettled f.stage f.place f.kept f.buffer.items (vec_capacity f.buffer) };
}

impl Framer {
    ghost use Rattle.std.specs.Borrow.{sem};
    ghost use Rattle.std.specs.Option.{option_copied};
    ghost use Rattle.wire_frames.specs.Lending.{GivesOut};

    /// A framer at the start of a stream. It takes all its memory here.
    pub fn new(alloc: Global) -> Result<Framer, Memory>
        ensures { IfOk result (λ framer. framer ≡ fresh_framer) }
    {
        match Vec::with_capacity(alloc, LENGTH_BYTES + MAX_FRAME_BYTES) {
            Ok(buffer) => Ok(Framer {
                buffer,
                kept: 0,
                place: 0,
                stage: Stage::Open,
            }),
            Err(_) => Err(Memory),
        }
    }

    /// Takes the longest front of the piece that doesn't go past the end of the present frame, and gives the number of
    /// its bytes: 0 while a whole frame waits. Once it failed it answers the same fault until `restart`.
    pub fn feed(&mut self, piece: &[u8]) -> Result<usize, FrameFault>
        requires { self.old.place + length piece.now < 2 ^ 64 }
        ensures answer { result ≡ (feed self.old piece.now).answer }
        ensures framer { self.new ≡ (feed self.old piece.now).framer }
        ensures within { IfOk result (λ n. n ≤ length piece.now) }
        ensures some { IfOk result (λ n.
            0 < length piece.now → IsNone (whole_body self.old.state) → 0 < n) }
        ensures stops { IfOk result (λ n.
            n < length piece.now → IsSome (whole_body self.new.state)) }
        ensures place { IfOk result (λ n. self.new.place ≡ self.old.place + n) }

        // What it says of the stream, however that was cut so far.
        ensures frames { (stream : List ℕ) (bodies : List (List ℕ))
            → HasTaken stream bodies self.old
            → HasTaken (stream ++ taken_part result piece.now) bodies self.new }
    {
        self.advance(piece)
    }

    // `feed`, by what is kept alone.
    fn advance(&mut self, piece: &[u8]) -> Result<usize, FrameFault>
        requires { self.old.place + length piece.now < 2 ^ 64 }
        ensures answer { result ≡ (feed self.old piece.now).answer }
        ensures framer { self.new ≡ (feed self.old piece.now).framer }
        ensures within { IfOk result (λ n. n ≤ length piece.now) }
        ensures some { IfOk result (λ n.
            0 < length piece.now → IsNone (whole_body self.old.state) → 0 < n) }
        ensures stops { IfOk result (λ n.
            n < length piece.now → IsSome (whole_body self.new.state)) }
        ensures place { IfOk result (λ n. self.new.place ≡ self.old.place + n) }
    {
        match self.stage {
            Stage::Failed { at } => return Err(FrameFault::TooLong { at }),
            Stage::Whole => return Ok(0),
            Stage::Open => {}
        }
        let at = self.place - self.kept as u64;
        self.buffer.truncate(self.kept);
        match fill_frame(&mut self.buffer, piece) {
            Filled::Short => {
                self.kept = self.buffer.len();
                self.place += piece.len() as u64;
                Ok(piece.len())
            }
            Filled::Whole { taken } => {
                self.kept = self.buffer.len();
                self.stage = Stage::Whole;
                self.place += taken as u64;
                Ok(taken)
            }
            Filled::Long => {
                self.kept = 0;
                self.stage = Stage::Failed { at };
                Err(FrameFault::TooLong { at })
            }
        }
    }

    /// The body of the frame that is whole, once.
    pub fn take(&mut self) -> Option<&[u8]>
        ensures* after { sem 𝓛 (GivesOut self.entry) }
        ensures body { option_copied result ≡ whole_body self.old.state }
        ensures frames { (stream : List ℕ) (bodies : List (List ℕ))
            → HasTaken stream bodies self.old → IfSome result (λ body.
            HasTaken stream (bodies ++ body.now ∷ []) (after_take self.old)) }
    {
        match self.stage {
            Stage::Whole => {}
            _ => return None,
        }
        let end = self.kept;
        self.kept = 0;
        self.stage = Stage::Open;
        Some(&self.buffer[LENGTH_BYTES..end])
    }

    /// Whether no byte of an unfinished frame is kept.
    pub fn between(&self) -> bool
        ensures { result ≡ is_between self.now.state }
    {
        match self.stage {
            Stage::Open => self.kept == 0,
            Stage::Whole => true,
            Stage::Failed { .. } => false,
        }
    }

    /// Makes it as `new` does, for another stream.
    pub fn restart(&mut self)
        ensures { self.new ≡ fresh_framer }
    {
        self.kept = 0;
        self.place = 0;
        self.stage = Stage::Open;
    }
}
