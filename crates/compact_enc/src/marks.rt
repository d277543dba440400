//! First bytes of a number's spelling, and from where on a number needs so many bytes.

/// Two bytes follow. A number below it is its own spelling.
pub const MARK_U16: u8 = 0xfd;
/// Four bytes follow.
pub const MARK_U32: u8 = 0xfe;
/// Eight bytes follow.
pub const MARK_U64: u8 = 0xff;
/// The least number that needs two bytes behind a mark.
pub const LEAST_U16: u64 = 0xfd;
/// The least number that needs four.
pub const LEAST_U32: u64 = 0x1_0000;
/// The least number that needs eight.
pub const LEAST_U64: u64 = 0x1_0000_0000;
