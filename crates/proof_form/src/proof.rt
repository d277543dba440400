//! What proves an answer.
ghost use Rattle.std.specs.Prelude.{◌≡◌, ℕ, List, ◌++◌, IfOk};
ghost use Rattle.compact_enc.specs.Spelling.{uint_spelling};
ghost use Rattle.compact_enc.specs.Input.{Reads, Yields};
ghost use Rattle.compact_enc.specs.Written.{Puts, SameBuffer, Writes};
ghost use Rattle.proof_form.specs.Form.{Ahead, part_spelling, part_of};
ghost use Rattle.proof_form.specs.Proofs.{Proof as ProofSpelled, ProofFits, view, block_view, block_spelling, hash_spelling, upgrade_spelling, proof_flags, parts_spelling, proof_spelling, block_of, hash_of, upgrade_of, proof_of};

use crate::fields::{
    MAX_NUMBER, buffer_from, fixed64_from, number_from, proof_start_from, seek_if, span_from,
    write_numbers, write_seek,
};
use crate::flags::{BLOCK, HASH, SEEK, UPGRADE, flag, has};
use crate::form::BadForm;
use crate::twigs::{cover_from, trail_from, twig_from, write_twig, write_twigs};
use compact_enc::{Decoder, Encoder, Full};
use flat_tree::MAX_BLOCK_BYTES;
use merkle_nodes::{Node, Trail, Twigs};

/// What proves an answer: at least one part, and a seek only beside a block.
#[derive(Drop)]
pub struct Proof<'f> {
    pub fork: u64,
    pub block: Option<BlockPart<'f>>,
    pub hash: Option<HashPart>,
    /// The byte that was sought, which the block has.
    pub seek: Option<u64>,
    pub upgrade: Option<UpgradePart>,
}

/// A block with its index, and siblings of its path, lowest first.
#[derive(Drop)]
pub struct BlockPart<'f> {
    pub index: u64,
    pub bytes: &'f [u8],
    pub trail: Trail,
}

/// A node, and siblings of its path, lowest first.
#[derive(Drop)]
pub struct HashPart {
    pub node: Node,
    pub trail: Trail,
}

/// An upgrade from a length, `start`, to a greater one: the twigs of the cover of the blocks between, left to right, and
/// the signature of the head with the greater one.
#[derive(Drop)]
pub struct UpgradePart {
    pub start: u64,
    pub length: u64,
    pub nodes: Twigs,
    pub signature: [u8; 64],
}

/// Reads a proof from the front of what is left, and doesn't look at what follows it. After an `Err` the decoder is
/// unchanged.
pub fn read_proof<'f>(from: &mut Decoder<'f>) -> Result<Proof<'f>, BadForm>
    // What is read has a spelling, and is spelled so.
    ensures fits { IfOk result (λ proof. ProofFits (view proof)) }
    ensures found { IfOk result (λ proof.
        from.old.rest ≡ proof_spelling (view proof) ++ from.new.rest) }
    // What is spelled so is read.
    ensures only { (proof : ProofSpelled) → (more : List ℕ) → ProofFits proof
        → from.old.rest ≡ proof_spelling proof ++ more
        → Yields view result proof × (from.new.rest ≡ more) }
    // Which field is bad and why, and what is left.
    ensures exact { Reads view from.old from.new result (proof_of from.old) }
{
    let mut ahead = from.copy();
    match proof_from(&mut ahead) {
        Ok(proof) => {
            *from = ahead;
            Ok(proof)
        }
        Err(bad) => Err(bad),
    }
}

/// Writes a proof. `Full` comes exactly where fewer bytes are free than its spelling has, and then what was written
/// stays; what stands behind it isn't said.
pub fn put_proof(proof: &Proof<'_>, to: &mut Encoder<'_>) -> Result<(), Full>
    requires fits { ProofFits (view proof.now) }
    ensures puts { Puts (proof_spelling (view proof.now)) to.old to.new result }
    ensures same { SameBuffer to.old to.new }
{
    let start = to.place();
    if let Err(full) = write_proof(proof, to) {
        to.back_to(start);
        return Err(full);
    }
    Ok(())
}

#[tactic(auto, unfolding(crate::specs::Proofs::proof_spelling))]
fn write_proof(proof: &Proof<'_>, to: &mut Encoder<'_>) -> Result<(), Full>
    ensures { Writes (proof_spelling (view proof.now)) to.old to.new result }
{
    write_numbers(proof.fork, flags(proof), to)?;
    write_parts(proof, to)
}

/// The flags of the parts that are there.
fn flags(proof: &Proof<'_>) -> u64
    ensures { result ≡ proof_flags (view proof.now) }
{
    flag(BLOCK, proof.block.is_some())
        + flag(HASH, proof.hash.is_some())
        + flag(SEEK, proof.seek.is_some())
        + flag(UPGRADE, proof.upgrade.is_some())
}

fn write_parts(proof: &Proof<'_>, to: &mut Encoder<'_>) -> Result<(), Full>
    ensures { Writes (parts_spelling (view proof.now)) to.old to.new result }
{
    write_block(&proof.block, to)?;
    write_hash(&proof.hash, to)?;
    write_seek(proof.seek, to)?;
    write_upgrade(&proof.upgrade, to)
}

fn write_block(part: &Option<BlockPart<'_>>, to: &mut Encoder<'_>) -> Result<(), Full>
    ensures { Writes (part_spelling block_spelling (block_view part.now)) to.old to.new result }
{
    let Some(block) = part else {
        return Ok(());
    };
    to.put_uint(block.index)?;
    to.put_buffer(block.bytes)?;
    write_twigs(block.trail.as_slice(), to)
}

fn write_hash(part: &Option<HashPart>, to: &mut Encoder<'_>) -> Result<(), Full>
    ensures { Writes (part_spelling hash_spelling part.now) to.old to.new result }
{
    let Some(hash) = part else {
        return Ok(());
    };
    to.put_uint(hash.node.index)?;
    write_twig(&hash.node.twig(), to)?;
    write_twigs(hash.trail.as_slice(), to)
}

fn write_upgrade(part: &Option<UpgradePart>, to: &mut Encoder<'_>) -> Result<(), Full>
    ensures { Writes (part_spelling upgrade_spelling part.now) to.old to.new result }
{
    let Some(upgrade) = part else {
        return Ok(());
    };
    write_numbers(upgrade.start, upgrade.length, to)?;
    write_twigs(upgrade.nodes.as_slice(), to)?;
    to.put_fixed(&upgrade.signature)
}

/// A proof from the front of an input, which is used up as far as it was read.
#[tactic(auto, unfolding(crate::specs::Proofs::proof_of))]
fn proof_from<'f>(from: &mut Decoder<'f>) -> Result<Proof<'f>, BadForm>
    ensures { Ahead view from.new result (proof_of from.old) }
{
    let (fork, flags) = proof_start_from(from)?;
    let block = block_if(has(BLOCK, flags), from)?;
    let hash = hash_if(has(HASH, flags), from)?;
    let seek = seek_if(has(SEEK, flags), from)?;
    let upgrade = upgrade_if(has(UPGRADE, flags), from)?;
    Ok(Proof {
        fork,
        block,
        hash,
        seek,
        upgrade,
    })
}

/// A block's index, bytes and siblings, where they are there.
#[tactic(auto, unfolding(crate::specs::Proofs::block_of))]
fn block_if<'f>(here: bool, from: &mut Decoder<'f>) -> Result<Option<BlockPart<'f>>, BadForm>
    ensures { Ahead block_view from.new result (part_of here block_of from.old) }
{
    if !here {
        return Ok(None);
    }
    let index = number_from(MAX_NUMBER, from)?;
    let bytes = buffer_from(MAX_BLOCK_BYTES, from)?;
    let trail = trail_from(from)?;
    Ok(Some(BlockPart {
        index,
        bytes,
        trail,
    }))
}

/// A node and its siblings, where they are there.
#[tactic(auto, unfolding(crate::specs::Proofs::hash_of))]
fn hash_if(here: bool, from: &mut Decoder<'_>) -> Result<Option<HashPart>, BadForm>
    ensures { Ahead (λ hash. hash) from.new result (part_of here hash_of from.old) }
{
    if !here {
        return Ok(None);
    }
    let index = number_from(MAX_NUMBER, from)?;
    let twig = twig_from(from)?;
    let trail = trail_from(from)?;
    Ok(Some(HashPart {
        node: twig.numbered(index),
        trail,
    }))
}

/// A start and a length, the twigs of the cover between, and the signature, where they are there.
#[tactic(auto, unfolding(crate::specs::Proofs::upgrade_of))]
fn upgrade_if(here: bool, from: &mut Decoder<'_>) -> Result<Option<UpgradePart>, BadForm>
    ensures { Ahead (λ upgrade. upgrade) from.new result (part_of here upgrade_of from.old) }
{
    if !here {
        return Ok(None);
    }
    let (start, length) = span_from(from)?;
    let nodes = cover_from(start, length, from)?;
    let signature = fixed64_from(from)?;
    Ok(Some(UpgradePart {
        start,
        length,
        nodes,
        signature,
    }))
}
