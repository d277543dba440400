//! A core over a disk (docs/FORMATS.md, "The change file"): its definitions and laws; how a disk is opened and made anew, and a
//! core on it read; what each change is about to write, and how that is written so that a crash at each moment leaves the
//! content before it or the one after it; and a core on a disk as every core.
#![tactic(auto)]

mod acting;
mod admitting;
mod appending;
mod block_laws;
mod change_laws;
mod changes;
mod committing;
mod copies;
mod cutting;
mod disk_core;
mod filling;
mod handing;
mod in_range;
mod laid_laws;
mod laws;
mod layout;
mod nodes;
mod offsets;
mod opening;
mod parts;
mod plan_laws;
mod putting;
mod records;
mod replay;
mod store;
mod viewing;
mod writing;

pub use block_laws::{
    a_torn_write_leaves_held_blocks, blocks_stand_after_each_change, held_blocks_stand_apart,
    offsets_stay_under_each_change,
};
pub use change_laws::{a_change_commits, a_firm_disk_stands, a_firm_disk_stands_firmly};
pub use disk_core::DiskCore;
pub use laid_laws::{
    an_entry_that_follows_is_legal, what_is_laid_is_the_content, wholeness_in_words,
};
pub use laws::{
    a_new_store_stands, an_entry_gives_the_next_content, areas_stand_behind_an_entry,
    each_change_writes, following_in_words, new_nodes_make_an_entry,
};
pub use layout::{ID_AT, NODE_BYTES};
pub use plan_laws::each_change_is_planned;
