//! The lines that the program prints, put together in place.
ghost use Rattle.std.specs.Prelude.{◌≡◌, ◌≤◌, ◌<◌, ◌+◌, ◌-◌, ◌^◌, ◌++◌, [], ◌∷◌, ℕ, length, drop, codes};
ghost use Rattle.std.specs.Fmt.{decimal};
ghost use Rattle.hex.specs.Hex.{encode_lower};
ghost use Rattle.hypercore_cli.specs.Outcomes.{line_of, node_text, what_text, area_text, place_text, id_line, length_line};

use crate::outcome::Outcome;
use disk_trait::Area;
use flat_tree::RoomList;
use merkle_nodes::{Node, What};
use node_set::Place;

/// The most bytes of a line.
pub const LINE_BYTES: usize = 240;

/// The most digits of a number.
const MOST_DIGITS: usize = 20;

/// The digits of a hash.
const HASH_DIGITS: usize = 64;

/// The most bytes of the name of a quantity or an area.
const MOST_NAME_BYTES: usize = 11;

/// A line, or a front of one.
pub type Line = RoomList<u8, LINE_BYTES>;

/// The line of an end, with its line feed; empty where there is none.
pub fn line(outcome: &Outcome) -> Line
    ensures { result ≡ line_of outcome.now }
{
    match outcome {
        Outcome::Done => Line::new(0),
        Outcome::Usage => text_line(b"usage: hypercore_cli COMMAND KEY [NAME] [ARGUMENTS]\n"),
        Outcome::ReadFault => text_line(b"read fault\n"),
        Outcome::WriteFault => text_line(b"write fault\n"),
        Outcome::StoreFault => text_line(b"store fault\n"),
        Outcome::BadForm { at } => number_line(b"bad form at ", *at as u64),
        Outcome::NotProved { index, want, have } => not_proved_line(*index, want, have),
        Outcome::BadSignature => text_line(b"bad signature\n"),
        Outcome::NoCore => text_line(b"no core\n"),
        Outcome::CoreExists => text_line(b"core exists\n"),
        Outcome::OutOfRange { end } => number_line(b"out of range: ", *end),
        Outcome::Unavailable { index } => number_line(b"unavailable block ", *index),
        Outcome::Limit { what, max } => limit_line(*what, *max),
        Outcome::BadStore { area, at } => bad_store_line(*area, *at),
        Outcome::Damaged { place, want, have } => damaged_line(*place, want, have),
        Outcome::NoMemory => text_line(b"no memory\n"),
    }
}

fn text_line(text: &[u8]) -> Line
    requires { length text.now ≤ LINE_BYTES }
    ensures { result ≡ text.now }
{
    let mut line = Line::new(0);
    line.extend(text);
    line
}

/// A text and a number.
fn number_line(text: &[u8], number: u64) -> Line
    requires { length text.now + (MOST_DIGITS + 1) ≤ LINE_BYTES }
    ensures { result ≡ text.now ++ decimal number ++ 10 ∷ [] }
{
    let mut line = text_line(text);
    put_number(&mut line, number);
    line.push(b'\n');
    line
}

fn limit_line(what: What, max: u64) -> Line
    ensures { result ≡ codes "limit " ++ what_text what ++ codes ": " ++ decimal max ++ 10 ∷ [] }
{
    let mut line = text_line(b"limit ");
    line.extend(text_of(what));
    line.extend(b": ");
    put_number(&mut line, max);
    line.push(b'\n');
    line
}

/// The name of a quantity that has a limit.
fn text_of(what: What) -> &'static [u8]
    ensures text { result.now ≡ what_text what }
    ensures room { length result.now ≤ MOST_NAME_BYTES }
{
    match what {
        What::Block => b"block",
        What::Blocks => b"blocks",
        What::Bytes => b"bytes",
        What::Batch => b"batch",
        What::BatchBytes => b"batch-bytes",
        What::Fork => b"fork",
        What::Oplog => b"oplog",
        What::Commits => b"commits",
    }
}

fn bad_store_line(area: Area, at: u64) -> Line
    ensures { result ≡ codes "bad store " ++ area_text area ++ codes " at " ++ decimal at ++ 10 ∷ [] }
{
    let mut line = text_line(b"bad store ");
    line.extend(text_of_area(area));
    line.extend(b" at ");
    put_number(&mut line, at);
    line.push(b'\n');
    line
}

/// The name of an area.
fn text_of_area(area: Area) -> &'static [u8]
    ensures text { result.now ≡ area_text area }
    ensures room { length result.now ≤ MOST_NAME_BYTES }
{
    match area {
        Area::Oplog => b"oplog",
        Area::Tree => b"tree",
        Area::BitsA => b"bits-a",
        Area::BitsB => b"bits-b",
        Area::Blocks => b"blocks",
    }
}

fn damaged_line(place: Place, want: &[u8; 32], have: &[u8; 32]) -> Line
    ensures { result ≡ codes "damaged " ++ place_text place ++ codes " want " ++ encode_lower want.now
        ++ codes " have " ++ encode_lower have.now ++ 10 ∷ [] }
{
    let mut line = text_line(b"damaged ");
    put_place(&mut line, place);
    line.extend(b" want ");
    put_hash(&mut line, want);
    line.extend(b" have ");
    put_hash(&mut line, have);
    line.push(b'\n');
    line
}

/// A node, a block or a copy of the bits.
fn put_place(line: &mut Line, place: Place)
    requires { length line.old + (6 + MOST_DIGITS) ≤ LINE_BYTES }
    ensures place { line.new ≡ line.old ++ place_text place }
    ensures room { length line.new ≤ length line.old + (6 + MOST_DIGITS) }
{
    match place {
        Place::Node { index } => put_numbered(line, b"node ", index),
        Place::Leaf { index } => put_numbered(line, b"block ", index),
        Place::BitsCopy { area } => line.extend(text_of_area(area)),
    }
}

/// A text and a number behind what is there.
fn put_numbered(line: &mut Line, text: &[u8], number: u64)
    requires { length line.old + (length text.now + MOST_DIGITS) ≤ LINE_BYTES }
    ensures text { line.new ≡ line.old ++ text.now ++ decimal number }
    ensures room { length line.new ≤ length line.old + (length text.now + MOST_DIGITS) }
{
    line.extend(text);
    put_number(line, number);
}

/// The line of `init`.
pub fn id_line(id: &[u8; 32]) -> Line
    ensures { result ≡ id_line id.now }
{
    let mut line = text_line(b"id ");
    put_hash(&mut line, id);
    line.push(b'\n');
    line
}

/// The line of a change of the length.
pub fn length_line(length: u64, fork: u64) -> Line
    ensures { result ≡ length_line length fork }
{
    let mut line = text_line(b"length ");
    put_number(&mut line, length);
    line.extend(b" fork ");
    put_number(&mut line, fork);
    line.push(b'\n');
    line
}

fn not_proved_line(index: u64, want: &Node, have: &Node) -> Line
    ensures { result ≡ codes "not proved: index " ++ decimal index ++ codes " want "
        ++ node_text want.now ++ codes " have " ++ node_text have.now ++ 10 ∷ [] }
{
    let mut line = text_line(b"not proved: index ");
    put_number(&mut line, index);
    line.extend(b" want ");
    put_node(&mut line, want);
    line.extend(b" have ");
    put_node(&mut line, have);
    line.push(b'\n');
    line
}

/// A node's size and hash.
fn put_node(line: &mut Line, node: &Node)
    requires { length line.old + (MOST_DIGITS + 1 + HASH_DIGITS) ≤ LINE_BYTES }
    ensures node { line.new ≡ line.old ++ node_text node.now }
    ensures room { length line.new ≤ length line.old + (MOST_DIGITS + 1 + HASH_DIGITS) }
{
    put_number(line, node.size);
    line.push(b' ');
    put_hash(line, &node.hash);
}

/// A hash in lower-case digits.
fn put_hash(line: &mut Line, hash: &[u8; 32])
    requires { length line.old + HASH_DIGITS ≤ LINE_BYTES }
    ensures hash { line.new ≡ line.old ++ encode_lower hash.now }
    ensures room { length line.new ≤ length line.old + HASH_DIGITS }
{
    let mut digits = [0; HASH_DIGITS];
    if hex::encode_to_slice(hash.as_slice(), &mut digits).is_ok() {
        line.extend(&digits);
    }
}

/// A number in decimal digits.
fn put_number(line: &mut Line, number: u64)
    requires { length line.old + MOST_DIGITS ≤ LINE_BYTES }
    ensures number { line.new ≡ line.old ++ decimal number }
    ensures room { length line.new ≤ length line.old + MOST_DIGITS }
{
    let mut digits = [0; MOST_DIGITS];
    let first = digits_of(number, &mut digits);
    line.extend(&digits[first..]);
}

/// Puts a number's decimal digits at the end of the place, and gives the place of the first.
fn digits_of(number: u64, digits: &mut [u8; 20]) -> usize
    ensures within { result ≤ MOST_DIGITS }
    ensures digits { drop result digits.new ≡ decimal number }
{
    let mut first = MOST_DIGITS;
    let mut rest = number;
    loop {
        first -= 1;
        digits[first] = b'0' + (rest % 10) as u8;
        rest /= 10;
        if rest == 0 {
            return first;
        }
    }
}
