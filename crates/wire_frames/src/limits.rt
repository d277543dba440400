/// The most bytes that the body of a frame has.
pub const MAX_FRAME_BYTES: usize = 1_056_768;
/// The bytes of a frame's length.
pub const LENGTH_BYTES: usize = 3;
/// The most bytes that an outbox holds.
pub const OUTBOX_BYTES: usize = 1_064_960;
