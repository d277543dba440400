//! Times the hash, the core in memory, and the core on a disk.
//!
//! `stdin` hashes standard input, and `small LENGTH COUNT` hashes COUNT messages of LENGTH bytes; each prints a byte that
//! depends on every hash.
//! `append BATCHES` appends batches of 1,024 blocks of 32 bytes to a core in memory; `get BATCHES` reads each block of
//! such a log in order, and `jump BATCHES` each block after one of another batch; `hash BATCHES PARENTS` makes the hashes
//! of as many leaves, with so many parents each. `admit BATCHES` upgrades a core to a log of so many batches of 1,024
//! blocks of 1,000 bytes and admits each block in order, and `admit-jump BATCHES` where they jump about. Each prints the
//! nanoseconds of the first tenth, of the last tenth, and of all; behind them the admissions print the same of the hashes
//! that they need, how many parents these have, and how many blocks are held then.
//! `commit FOLDER COUNT SIZE` makes a core by name below FOLDER, which is made where it isn't there, and appends COUNT
//! blocks of SIZE bytes to it, each by an append of its own; `leaves COUNT SIZE PARENTS` makes the hashes of the leaves of
//! as many blocks, and of so many parents. Each prints the nanoseconds of that alone; a fault of the shelf or of the core
//! ends it with status 1.
//! With no words it prints nothing.
#![tactic(auto)]

mod admits;
mod appends;
mod commits;
mod leaf_hashes;
mod memory;
mod messages;
mod offers;
mod path_hashes;
mod times;

use std::{env, io};

// The number that a word spells, or 0.
fn number_of(word: Option<String>) -> u64 {
    match word {
        Some(word) => word.as_str().parse::<u64>().unwrap_or(0),
        None => 0,
    }
}

// The hash, whose programs are timed from outside.
fn hash_messages(rt: &HostRuntime, length: u64, count: u64) -> io::Result<()> {
    let byte = messages::mixed_of_small(length as usize, count);
    println!(rt; "{byte:02x}")
}

fn hash_input(rt: &HostRuntime) -> io::Result<()> {
    let byte = messages::first_of_input(rt.stdin())?;
    println!(rt; "{byte:02x}")
}

fn commit(rt: &HostRuntime, folder: Option<String>, count: u64, size: u64) -> io::Result<()> {
    let Some(folder) = folder else {
        return Err(io::Error::other("no folder"));
    };
    let nanoseconds = commits::commit_all(rt, folder, count, size)?;
    println!(rt; "{nanoseconds}")
}

fn leaves(rt: &HostRuntime, count: u64, size: u64, parents: u64) -> io::Result<()> {
    let nanoseconds = leaf_hashes::hash_all(rt, count, size, parents)?;
    println!(rt; "{nanoseconds}")
}

fn main(rt: HostRuntime) -> io::Result<()> {
    let mut words = env::args(&rt)?;
    let _program = words.next();
    let Some(kind) = words.next() else {
        return Ok(());
    };
    if kind.as_str() == "stdin" {
        return hash_input(&rt);
    }
    let first = words.next();
    let second = number_of(words.next());
    let third = number_of(words.next());
    if kind.as_str() == "commit" {
        return commit(&rt, first, second, third);
    }
    let first = number_of(first);
    match kind.as_str() {
        "small" => hash_messages(&rt, first, second),
        "leaves" => leaves(&rt, first, second, third),
        kind => memory::timed(&rt, kind, first, second),
    }
}
