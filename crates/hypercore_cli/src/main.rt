//! `hypercore_cli COMMAND KEY [NAME] [ARGUMENTS]`: a store of signed append-only logs. So far `check KEY`: it reads a
//! proof bundle and writes the block that it proves; `prove KEY INDEX`: it reads a log's blocks as lines and writes
//! the proof bundle of one; and, over the cores of a folder, `init KEY NAME`: it makes a core and writes its id;
//! `append KEY NAME`: it appends lines as blocks; and `get KEY NAME INDEX`: it writes a block. `run` is the whole program
//! over a shelf and streams that it is handed.
#![tactic(auto)]

mod append;
mod batches;
mod check;
mod command;
mod faults;
mod get;
mod init;
mod line;
mod log;
mod outcome;
mod prove;
mod run;
mod words;

use crate::outcome::Outcome;
use core_keys::MacKeys;
use core_shelf::FolderShelf;
use outside_traits::{StdSink, StdSource};
use std::fs::{File, OpenOptions};
use std::os::fd::{AsFd, IntoRawFd};
use std::process::ExitCode;
use std::rt::Env;
use std::{env, io};

/// The folder of the cores, in the folder where the program runs.
const STORE: &str = "hypercore-store";

/// What is opened in the place of a standard stream that is closed.
const NOWHERE: &str = "/dev/null";

fn main(rt: HostRuntime) -> ExitCode {
    let mut errors = StdSink::new(rt.stderr());
    if let Err(outcome) = fill_closed_streams(&rt) {
        return ExitCode::from(run::end(outcome, &mut errors));
    }
    let words = match command_line(&rt) {
        Ok(words) => words,
        Err(outcome) => return ExitCode::from(run::end(outcome, &mut errors)),
    };
    let Ok(root) = String::from_str(rt.alloc(), STORE) else {
        return ExitCode::from(run::end(Outcome::NoMemory, &mut errors));
    };
    let mut shelf = FolderShelf::new(rt, root);
    let mut input = StdSource::new(rt.stdin());
    let mut output = StdSink::new(rt.stdout());
    ExitCode::from(run::run(
        rt.alloc(),
        words.as_slice(),
        &mut shelf,
        &MacKeys,
        &mut input,
        &mut output,
        &mut errors,
    ))
}

/// Opens what can't be read in the place of a closed input, and what can't be written in that of a closed output or
/// stream of errors. The system gives the lowest number that is free, so that else a file of the store would be the
/// stream. Each stays open to the program's end.
fn fill_closed_streams(rt: &HostRuntime) -> Result<(), Outcome> {
    if !is_open(&rt.stdin()) {
        let filled = OpenOptions::new().write(true).open(rt, NOWHERE);
        keep_open(filled, Outcome::ReadFault)?;
    }
    if !is_open(&rt.stdout()) {
        keep_open(File::open(rt, NOWHERE), Outcome::WriteFault)?;
    }
    if !is_open(&rt.stderr()) {
        keep_open(File::open(rt, NOWHERE), Outcome::WriteFault)?;
    }
    Ok(())
}

/// Whether a stream is open: only an open one has a second handle.
fn is_open<S: AsFd>(stream: &S) -> bool {
    stream.as_fd().try_clone_to_owned().is_ok()
}

/// Leaves a file open to the program's end.
fn keep_open(file: io::Result<File>, or_else: Outcome) -> Result<(), Outcome> {
    match file {
        Ok(file) => {
            file.into_raw_fd();
            Ok(())
        }
        Err(_) => Err(or_else),
    }
}

/// The words behind the program's name. Words that aren't text are no command line.
fn command_line<R: Env + AllocGlobal>(rt: &R) -> Result<Vec<String>, Outcome> {
    match env::args(rt) {
        Ok(words) => words
            .skip(1)
            .collect::<Vec<String>>(rt.alloc())
            .map_err(|_| Outcome::NoMemory),
        Err(error) => match error.kind() {
            io::ErrorKind::InvalidData => Err(Outcome::Usage),
            _ => Err(Outcome::NoMemory),
        },
    }
}
