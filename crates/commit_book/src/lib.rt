//! One history of commits that many threads share: a book under a lock adds to it, and each thread's pass has seen a
//! beginning of it. The history exists in the proofs alone; what is kept at run time is its length.
//! The crate also says what a commit does to a core in short, and which lists of commits are legal.
#![tactic(auto)]

mod book;
mod close;
mod commit;
mod laid;
mod law;
mod pass;
mod steps;

pub use book::Book;
pub use close::BookClose;
pub use commit::{Commit, Entry};
pub use laid::{Laid, MAX_PASSES, lay, start};
pub use law::Named;
pub use pass::{Pass, PassList};
