//! Links to peers: streams of bytes in both directions, what dials them and what accepts them, as traits whose clauses
//! say what is promised of them, with forms in memory for tests and theorems, and the adapters over TCP that main uses.
//! A call fails only where its object's count of faults rose.
#![tactic(auto)]

mod bytes;
mod dial;
mod link;
mod listen;
mod mem_dial;
mod mem_listen;
mod memory;
mod send;
mod stream;
mod supply;
mod tcp;

pub use bytes::bytes_stay;
pub use dial::Dial;
pub use link::Link;
pub use listen::Listen;
pub use mem_dial::MemDial;
pub use mem_listen::MemListen;
pub use memory::{MAX_ADDRESS_BYTES, MemLink};
pub use send::send_all;
pub use stream::StreamLink;
pub use tcp::{TcpDial, TcpLink, TcpListen};
