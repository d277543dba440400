//! Keys and ids of cores by name, and the program's own authority over a key (docs/FORMATS.md, "Keys"). Each is a BLAKE2b
//! hash (RFC 7693). It takes no memory.
#![tactic(auto)]

mod authority;
mod ids;
mod keyed;

pub use authority::{MacAuth, MacKeys};
pub use ids::{DEFAULT_NAMESPACE, discovery, name_key, namespace};
