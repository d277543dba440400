//! What is asked of a core.
ghost use Rattle.std.specs.Prelude.{◌≡◌, ℕ, List, ◌++◌, IfOk};
ghost use Rattle.compact_enc.specs.Spelling.{uint_spelling};
ghost use Rattle.compact_enc.specs.Input.{Reads, Yields};
ghost use Rattle.compact_enc.specs.Written.{Puts, SameBuffer, Writes};
ghost use Rattle.proof_form.specs.declared.request.Request.{Request as RequestSpelled};
ghost use Rattle.proof_form.specs.Form.{Ahead, number_of, part_spelling, part_of};
ghost use Rattle.proof_form.specs.Requests.{RequestFits, want_spelling, reach_spelling, request_flags, asked_spelling, request_spelling, want_of, reach_of, request_of};

use crate::fields::{
    MAX_NUMBER, number_from, request_start_from, seek_if, span_from, write_numbers, write_seek,
};
use crate::flags::{BLOCK, HASH, SEEK, UPGRADE, flag, has};
use crate::form::BadForm;
use compact_enc::{Decoder, Encoder, Full};
use flat_tree::MAX_SIBLINGS;

/// What is asked of a core: at least one part, and not both a block and a seek.
#[derive(Clone, Copy, Debug, PartialEq, Eq)]
pub struct Request {
    pub fork: u64,
    /// The block at an index.
    pub block: Option<Want>,
    /// The size and hash of a node, by its number.
    pub hash: Option<Want>,
    /// The block that has this byte of the log.
    pub seek: Option<u64>,
    /// A greater length, with its signature.
    pub upgrade: Option<Reach>,
}

/// A block or a node, with so many siblings of its path, lowest first.
#[derive(Clone, Copy, Debug, PartialEq, Eq)]
pub struct Want {
    pub index: u64,
    pub nodes: u64,
}

/// An upgrade from a length, `start`, to a greater one.
#[derive(Clone, Copy, Debug, PartialEq, Eq)]
pub struct Reach {
    pub start: u64,
    pub length: u64,
}

/// Reads a request from the front of what is left, and doesn't look at what follows it. After an `Err` the decoder is
/// unchanged.
pub fn read_request(from: &mut Decoder<'_>) -> Result<Request, BadForm>
    // What is read has a spelling, and is spelled so.
    ensures fits { IfOk result RequestFits }
    ensures found { IfOk result (λ request.
        from.old.rest ≡ request_spelling request ++ from.new.rest) }
    // What is spelled so is read.
    ensures only { (request : RequestSpelled) → (more : List ℕ) → RequestFits request
        → from.old.rest ≡ request_spelling request ++ more
        → Yields (λ read. read) result request × (from.new.rest ≡ more) }
    // Which field is bad and why, and what is left.
    ensures exact { Reads (λ request. request) from.old from.new result (request_of from.old) }
{
    let mut ahead = from.copy();
    match request_from(&mut ahead) {
        Ok(request) => {
            *from = ahead;
            Ok(request)
        }
        Err(bad) => Err(bad),
    }
}

/// Writes a request. `Full` comes exactly where fewer bytes are free than its spelling has, and then what was written
/// stays; what stands behind it isn't said.
pub fn put_request(request: &Request, to: &mut Encoder<'_>) -> Result<(), Full>
    requires fits { RequestFits request.now }
    ensures puts { Puts (request_spelling request.now) to.old to.new result }
    ensures same { SameBuffer to.old to.new }
{
    let start = to.place();
    if let Err(full) = write_request(request, to) {
        to.back_to(start);
        return Err(full);
    }
    Ok(())
}

#[tactic(auto, unfolding(crate::specs::Requests::request_spelling))]
fn write_request(request: &Request, to: &mut Encoder<'_>) -> Result<(), Full>
    ensures { Writes (request_spelling request.now) to.old to.new result }
{
    write_numbers(request.fork, flags(request), to)?;
    write_asked(request, to)
}

/// The flags of the parts that are there.
fn flags(request: &Request) -> u64
    ensures { result ≡ request_flags request.now }
{
    flag(BLOCK, request.block.is_some())
        + flag(HASH, request.hash.is_some())
        + flag(SEEK, request.seek.is_some())
        + flag(UPGRADE, request.upgrade.is_some())
}

fn write_asked(request: &Request, to: &mut Encoder<'_>) -> Result<(), Full>
    ensures { Writes (asked_spelling request.now) to.old to.new result }
{
    write_want(&request.block, to)?;
    write_want(&request.hash, to)?;
    write_seek(request.seek, to)?;
    write_reach(&request.upgrade, to)
}

fn write_want(part: &Option<Want>, to: &mut Encoder<'_>) -> Result<(), Full>
    ensures { Writes (part_spelling want_spelling part.now) to.old to.new result }
{
    let Some(want) = part else {
        return Ok(());
    };
    write_numbers(want.index, want.nodes, to)
}

fn write_reach(part: &Option<Reach>, to: &mut Encoder<'_>) -> Result<(), Full>
    ensures { Writes (part_spelling reach_spelling part.now) to.old to.new result }
{
    let Some(reach) = part else {
        return Ok(());
    };
    write_numbers(reach.start, reach.length, to)
}

/// A request from the front of an input, which is used up as far as it was read.
#[tactic(auto, unfolding(crate::specs::Requests::request_of))]
fn request_from(from: &mut Decoder<'_>) -> Result<Request, BadForm>
    ensures { Ahead (λ request. request) from.new result (request_of from.old) }
{
    let (fork, flags) = request_start_from(from)?;
    let block = want_if(has(BLOCK, flags), from)?;
    let hash = want_if(has(HASH, flags), from)?;
    let seek = seek_if(has(SEEK, flags), from)?;
    let upgrade = reach_if(has(UPGRADE, flags), from)?;
    Ok(Request {
        fork,
        block,
        hash,
        seek,
        upgrade,
    })
}

/// An index and a number of siblings, where they are there.
#[tactic(auto, unfolding(crate::specs::Requests::want_of))]
fn want_if(here: bool, from: &mut Decoder<'_>) -> Result<Option<Want>, BadForm>
    ensures { Ahead (λ want. want) from.new result (part_of here want_of from.old) }
{
    if !here {
        return Ok(None);
    }
    let index = number_from(MAX_NUMBER, from)?;
    let nodes = number_from(MAX_SIBLINGS as u64, from)?;
    Ok(Some(Want { index, nodes }))
}

/// What an upgrade is asked for, where it is there.
#[tactic(auto, unfolding(crate::specs::Requests::reach_of))]
fn reach_if(here: bool, from: &mut Decoder<'_>) -> Result<Option<Reach>, BadForm>
    ensures { Ahead (λ reach. reach) from.new result (part_of here reach_of from.old) }
{
    if !here {
        return Ok(None);
    }
    let (start, length) = span_from(from)?;
    Ok(Some(Reach { start, length }))
}
