//! A log as one value: its head, its roots, the blocks that are held and the nodes that are stored for them, as a trait
//! that memory, a disk and a proof laid over either implement; and the walks over it.
#![tactic(auto)]

mod laws;
mod overlay;
mod seeking;
mod view;
mod walk;

pub use laws::{overlay_keeps_its_view, what_is_laid};
pub use overlay::Overlay;
pub use seeking::{Spot, seek};
pub use view::View;
pub use walk::{byte_offset, need};
