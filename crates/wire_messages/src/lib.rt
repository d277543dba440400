//! Messages of a session, as the bodies of frames (docs/PROTOCOL.md, "Messages"), each with one spelling. For both ends
//! of a link. No call takes memory.
#![tactic(auto)]

mod laws;
mod message;
mod read;
mod write;

pub use laws::{messages_find_room, one_spelling_of_a_message};
pub use message::{MAX_ANSWER_BYTES, Message, PAGE_BLOCKS, PAGE_BYTES};
pub use read::{BadMessage, decode};
pub use write::put;
