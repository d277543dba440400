//! What stands in a core's change file (docs/FORMATS.md, "Headers and entries"): a header, which is a core's state in
//! short, and an entry, which is one commit with the head after it and the nodes that it made. Each has one spelling.
//! For whoever writes or opens the file. No call takes memory.
#![tactic(auto)]

mod commit;
mod entry;
mod fields;
mod form;
mod header;
mod laws;
mod nodes;
mod records;

pub use commit::MAX_NUMBER;
pub use entry::{Entry, MAX_ENTRY_BYTES, MAX_ENTRY_NODES, put_entry, read_entry};
pub use form::BadForm;
pub use header::{Header, MAX_HEADER_BYTES, VERSION, put_header, read_header};
pub use laws::{one_spelling_of_a_header, one_spelling_of_an_entry, payloads_find_room};
pub use records::Records;
