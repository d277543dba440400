//! The command line.
ghost use Rattle.std.specs.Prelude.{◌≡◌, ◌∷◌, codes, IsTrue};
ghost use Rattle.std.specs.List.{list_all};
ghost use Rattle.hypercore_cli.specs.Runs.{texts};
ghost use Rattle.hypercore_cli.specs.Words.{Name, is_digit, is_number, number_of};
ghost use Rattle.hypercore_cli.specs.Commands.{fits, IsCommandOf, IsKeyOf, IsNumberOf};

use crate::command::Command;
use hex::FromHex;

/// The most digits of a number.
const MOST_DIGITS: usize = 18;

/// The most bytes of a name.
const MOST_NAME_BYTES: usize = 255;

/// The command of a command line; `None` exactly where the words are no command line.
pub fn command_of(words: &[String]) -> Option<Command<'_>>
    ensures { IsCommandOf (texts words.now) result }
{
    if words.is_empty() {
        return None;
    }
    command_behind(words[0].as_str(), &words[1..])
}

/// The command of this name with these words behind it.
fn command_behind<'w>(name: &str, words: &'w [String]) -> Option<Command<'w>>
    ensures { IsCommandOf (name.now ∷ texts words.now) result }
{
    if name == "check" {
        return check_of(words);
    }
    if name == "prove" {
        return prove_of(words);
    }
    if name == "init" {
        return init_of(words);
    }
    if name == "append" {
        return append_of(words);
    }
    if name == "get" {
        return get_of(words);
    }
    None
}

/// The words behind `check`: KEY.
fn check_of<'w>(words: &'w [String]) -> Option<Command<'w>>
    ensures { IsCommandOf (codes "check" ∷ texts words.now) result }
{
    if words.len() != 1 {
        return None;
    }
    let key = key_in(words[0].as_str())?;
    Some(Command::Check { key })
}

/// The words behind `prove`: KEY INDEX.
fn prove_of<'w>(words: &'w [String]) -> Option<Command<'w>>
    ensures { IsCommandOf (codes "prove" ∷ texts words.now) result }
{
    if words.len() != 2 {
        return None;
    }
    let key = key_in(words[0].as_str())?;
    let index = number_in(words[1].as_str())?;
    Some(Command::Prove { key, index })
}

/// The words behind `init`: KEY NAME.
fn init_of<'w>(words: &'w [String]) -> Option<Command<'w>>
    ensures { IsCommandOf (codes "init" ∷ texts words.now) result }
{
    if words.len() != 2 {
        return None;
    }
    let key = key_in(words[0].as_str())?;
    let name = words[1].as_bytes();
    if !is_name(name) {
        return None;
    }
    Some(Command::Init { key, name })
}

/// The words behind `append`: KEY NAME.
fn append_of<'w>(words: &'w [String]) -> Option<Command<'w>>
    ensures { IsCommandOf (codes "append" ∷ texts words.now) result }
{
    if words.len() != 2 {
        return None;
    }
    let key = key_in(words[0].as_str())?;
    let name = words[1].as_bytes();
    if !is_name(name) {
        return None;
    }
    Some(Command::Append { key, name })
}

/// The words behind `get`: KEY NAME INDEX.
fn get_of<'w>(words: &'w [String]) -> Option<Command<'w>>
    ensures { IsCommandOf (codes "get" ∷ texts words.now) result }
{
    if words.len() != 3 {
        return None;
    }
    let key = key_in(words[0].as_str())?;
    let name = words[1].as_bytes();
    if !is_name(name) {
        return None;
    }
    let index = number_in(words[2].as_str())?;
    Some(Command::Get { key, name, index })
}

/// The key, where the word is one.
fn key_in(word: &str) -> Option<[u8; 32]>
    ensures { IsKeyOf word.now result }
{
    <[u8; 32] as FromHex>::from_hex(word).ok()
}

/// Whether these are the bytes of a name: not too many, and the first no hyphen.
fn is_name(word: &[u8]) -> bool
    ensures { result ≡ fits Name word.now }
{
    match word {
        [] => false,
        [first, ..] => *first != b'-' && word.len() <= MOST_NAME_BYTES,
    }
}

/// The number, where the word is one.
fn number_in(word: &str) -> Option<u64>
    ensures { IsNumberOf word.now result }
{
    let digits = word.as_bytes();
    if !is_number(digits) {
        return None;
    }
    Some(number_of(digits))
}

/// Whether these are one to eighteen digits, without a zero in front of another.
fn is_number(word: &[u8]) -> bool
    ensures { result ≡ is_number word.now }
{
    match word {
        [] => false,
        [first, rest @ ..] => {
            are_digits(word) && word.len() <= MOST_DIGITS && (*first != b'0' || rest.is_empty())
        }
    }
}

fn are_digits(word: &[u8]) -> bool
    ensures { result ≡ list_all is_digit word.now }
{
    word.iter().all(|byte| byte.is_ascii_digit())
}

/// The number that so few digits stand for.
fn number_of(digits: &[u8]) -> u64
    requires { IsTrue (is_number digits.now) }
    ensures { result ≡ number_of digits.now }
{
    let mut number = 0;
    for digit in digits {
        number = 10 * number + (*digit - b'0') as u64;
    }
    number
}
