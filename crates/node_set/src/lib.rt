//! What a sparse log is: the blocks that are held, the nodes that are stored for them, and views of both; with the laws
//! on which each promise about blocks from strangers stands.
#![tactic(auto)]

mod change;
mod closure;
mod fault;
mod laws;
mod nodes;
mod page;
mod path;
mod view;

pub use change::{Change, Fresh};
pub use closure::is_stored;
pub use fault::{CoreFault, Place, Receipt, Refusal};
pub use laws::{
    append_stays_whole, blocks_are_of_the_log, clear_stays_whole, closure_in_words, cover_as_test,
    nodes_are_of_the_log, offsets_are_of_the_log, truncate_stays_whole, upgrade_stays_whole,
};
pub use nodes::Nodes;
pub use page::PAGE_NODES;
pub use path::{byte_offset, need};
pub use view::View;
