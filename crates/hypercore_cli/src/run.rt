//! The whole program over a shelf and streams that it is handed.
ghost use Rattle.std.specs.Prelude.{◌≡◌, ℕ, List};
ghost use Rattle.hypercore_cli.specs.declared.outcome.Outcome.{Outcome as End};
ghost use Rattle.hypercore_cli.specs.Outcomes.{status_of, line_of};
ghost use Rattle.hypercore_cli.specs.Runs.{streams_of, run_of, AreHome, texts, Prints};
ghost use Rattle.hypercore_cli.specs.Causes.{Causes, RunsTo};

use crate::append::append;
use crate::check::check;
use crate::command::Command;
use crate::get::get;
use crate::init::init;
use crate::line::line;
use crate::outcome::Outcome;
use crate::prove::prove;
use crate::words::command_of;
use core_shelf::Shelf;
use outside_traits::{Keys, Sink, Source, write_all};
use std::alloc::Global;

/// Runs the command that the words say, and gives its exit status. The words don't have the program's name.
/// The line of a status other than 0 goes to `errors`.
pub fn run<H: Shelf, K: Keys, I: Source, O: Sink, E: Sink>(
    alloc: Global,
    words: &[String],
    shelf: &mut H,
    keys: &K,
    input: &mut I,
    output: &mut O,
    errors: &mut E,
) -> u8
    requires { AreHome (H.shelf shelf.old) }
    ensures causes { (outcome : End) × (result ≡ status_of outcome)
        × Causes (texts words.now) (run_of (streams_of (K.key_accepts keys.now) (I.source input.old)
        (I.source input.new) (O.sink output.old) (O.sink output.new)) (K.public_of keys.now) (H.shelf shelf.old)
        (H.shelf shelf.new)) outcome
        × Prints (E.sink errors.old) (E.sink errors.new) (line_of outcome) }
    ensures home { AreHome (H.shelf shelf.new) }
{
    end(run_words(alloc, words, shelf, keys, input, output), errors)
}

/// Runs the command that the words say.
fn run_words<H: Shelf, K: Keys, I: Source, O: Sink>(
    alloc: Global,
    words: &[String],
    shelf: &mut H,
    keys: &K,
    input: &mut I,
    output: &mut O,
) -> Outcome
    requires { AreHome (H.shelf shelf.old) }
    ensures causes { Causes (texts words.now) (run_of (streams_of (K.key_accepts keys.now) (I.source input.old)
        (I.source input.new) (O.sink output.old) (O.sink output.new)) (K.public_of keys.now) (H.shelf shelf.old)
        (H.shelf shelf.new)) result }
    ensures home { AreHome (H.shelf shelf.new) }
{
    match command_of(words) {
        Some(command) => run_command(alloc, &command, shelf, keys, input, output),
        None => Outcome::Usage,
    }
}

/// Runs a command.
fn run_command<H: Shelf, K: Keys, I: Source, O: Sink>(
    alloc: Global,
    command: &Command<'_>,
    shelf: &mut H,
    keys: &K,
    input: &mut I,
    output: &mut O,
) -> Outcome
    requires { AreHome (H.shelf shelf.old) }
    ensures runs { RunsTo (run_of (streams_of (K.key_accepts keys.now) (I.source input.old) (I.source input.new)
        (O.sink output.old) (O.sink output.new)) (K.public_of keys.now) (H.shelf shelf.old) (H.shelf shelf.new))
        command.now result }
    ensures home { AreHome (H.shelf shelf.new) }
{
    match command {
        Command::Check { key } => check(alloc, key, keys, input, output),
        Command::Prove { key, index } => prove(alloc, key, *index, keys, input, output),
        Command::Init { key, name } => init(alloc, key, name, shelf, keys, output),
        Command::Append { key, name } => append(alloc, key, name, shelf, keys, input, output),
        Command::Get { key, name, index } => get(alloc, key, name, *index, shelf, keys, output),
    }
}

/// Gives the line of an end to the stream of errors, and its status to the caller.
pub fn end<E: Sink>(outcome: Outcome, errors: &mut E) -> u8
    ensures status { result ≡ status_of outcome }
    ensures line { Prints (E.sink errors.old) (E.sink errors.new) (line_of outcome) }
{
    let line = line(&outcome);
    let _ = write_all(errors, line.as_slice());
    outcome.status()
}
