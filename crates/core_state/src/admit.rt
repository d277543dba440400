//! What a proof brings to a content in memory.
ghost use Rattle.std.specs.Prelude.{◌≡◌, ◌≢◌, ◌↔◌, ◌≤◌, ◌<◌, ◌++◌, ◌-◌, ℕ, List, [], true, Err, None, Some, IfOk, IfSome, IsOk, IsTrue, OnOk, length, option_map, replicate, vec_capacity};
ghost use Rattle.std.specs.List.{AllByRecursion};
ghost use Rattle.flat_tree.specs.declared.limits.TheConstants.{MAX_BLOCKS};
ghost use Rattle.bit_field.specs.Places.{has};
ghost use Rattle.merkle_nodes.specs.declared.node.Node.{Node};
ghost use Rattle.merkle_nodes.specs.Roots.{root_hash_of};
ghost use Rattle.proof_form.specs.Proofs.{block_view};
ghost use Rattle.node_set.specs.declared.fault.CoreFault.TheVariants.{Memory as MemoryFault};
ghost use Rattle.node_set.specs.Nodes.{has_place, values_of};
ghost use Rattle.node_set.specs.Whole.{IsWhole};
ghost use Rattle.proof_check.specs.Judge.{admitted};
ghost use Rattle.proof_check.specs.Admission.{IsPlain};
ghost use Rattle.core_state.specs.Events.{Admit};
ghost use Rattle.core_state.specs.InMemory.{content_of};
ghost use Rattle.core_state.specs.Turns.{Turns, Judged, Brings};
ghost use Rattle.core_state.specs.Reserves.{IsReserved, HasSpare, HasBytes, Suffices, blocks_put, held_put};

use crate::append::make_places;
use crate::stored::MemState;
use bit_field::Bits;
use merkle_nodes::{Roots, root_hash};
use node_set::{Change, CoreFault, Nodes, Receipt};
use outside_traits::{Blob, Memory, Verifier};
use proof_check::{Prepared, judge_into};
use proof_form::BlockPart;
use std::alloc::Global;

impl MemState {
    /// Takes in what a proof brings, if it isn't refused, with a place for the change. Without memory the content is as it was.
    pub(crate) fn admit<A: Verifier>(
        &mut self,
        alloc: Global,
        prepared: &Prepared<'_>,
        verifier: &A,
        change: &mut Change,
    ) -> Result<Receipt, CoreFault>
        requires plain { IsPlain prepared.now }
        requires whole { IsWhole (A.accepts verifier.now) (content_of self.old) }
        ensures turns { Turns (A.accepts verifier.now) (content_of self.old) (Admit prepared.now)
            (content_of self.new) result }
        ensures reserved { IsReserved (A.accepts verifier.now) self.old prepared.now → result ≢ Err MemoryFault }
    {
        match self.judged(prepared, verifier, change) {
            Ok(()) => {}
            Err(fault) => return Err(fault),
        }
        let is_in = match self.make_room(alloc, prepared.block(), change) {
            Ok(is_in) => is_in,
            Err(Memory) => return Err(CoreFault::Memory),
        };
        self.take_in(alloc, prepared, change, is_in);
        Ok(self.receipt(change.commit))
    }

    // Whether a proof is admitted, and what it changes.
    fn judged<A: Verifier>(
        &self,
        prepared: &Prepared<'_>,
        verifier: &A,
        change: &mut Change,
    ) -> Result<(), CoreFault>
        requires plain { IsPlain prepared.now }
        ensures { Judged (A.accepts verifier.now) (content_of self.now) prepared.now change.new result }
    {
        // it is within its ranges
        let _proof = prepared.proof();
        judge_into(&mut self.view(), verifier, prepared, change)
    }

    /// Takes all memory that an admission of a proof wants, unless it is refused, with a place for the change.
    pub(crate) fn reserve<A: Verifier>(
        &mut self,
        alloc: Global,
        prepared: &Prepared<'_>,
        verifier: &A,
        change: &mut Change,
    ) -> Result<(), Memory>
        requires plain { IsPlain prepared.now }
        requires whole { IsWhole (A.accepts verifier.now) (content_of self.old) }
        ensures reserved { OnOk result (IsReserved (A.accepts verifier.now) self.new prepared.now) }
        ensures content { content_of self.new ≡ content_of self.old }
    {
        match self.judged(prepared, verifier, change) {
            Ok(()) => {}
            Err(_) => return Ok(()),
        }
        match self.make_room(alloc, prepared.block(), change) {
            Ok(_) => Ok(()),
            Err(Memory) => Err(Memory),
        }
    }

    // Takes the memory that a change wants, and the block that it brings. What is there suffices where it does. Whether
    // the block lies in its place already.
    fn make_room(
        &mut self,
        alloc: Global,
        block: &Option<BlockPart<'_>>,
        change: &Change,
    ) -> Result<bool, Memory>
        requires few { change.now.head.length ≤ MAX_BLOCKS }
        ensures ok { OnOk result (Suffices self.new (block_view block.now) change.now) }
        ensures bytes { IfOk result (λ is_in. is_in ≡ true
            → HasBytes (has self.new.parts.held) self.new.spare (block_view block.now)) }
        ensures idle { Suffices self.old (block_view block.now) change.now → IsOk result }
        ensures content { content_of self.new ≡ content_of self.old }
    {
        let is_in = match make_spare(alloc, &mut self.spare, &self.held, block) {
            Ok(is_in) => is_in,
            Err(Memory) => return Err(Memory),
        };
        match take_room(
            alloc,
            &mut self.held,
            &mut self.nodes,
            &mut self.blocks,
            change,
        ) {
            Ok(()) => {}
            Err(Memory) => return Err(Memory),
        }
        Ok(is_in)
    }

    // Puts in what a change brings. Takes no memory.
    fn take_in(&mut self, alloc: Global, prepared: &Prepared<'_>, change: &Change, is_in: bool)
        requires brings { Brings prepared.now (content_of self.old) change.now }
        requires room { Suffices self.old prepared.now.block change.now }
        requires bytes { is_in ≡ true → HasBytes (has self.old.parts.held) self.old.spare prepared.now.block }
        ensures { content_of self.new ≡ admitted prepared.now (content_of self.old) }
    {
        let length = change.head.length;
        self.nodes.insert_all(change.fresh.as_slice());
        fill_up(alloc, &mut self.blocks, length as usize);
        put_block(
            &mut self.held,
            &mut self.blocks,
            &mut self.spare,
            prepared.block(),
            is_in,
        );
        self.root = root_after(prepared, change, &self.root);
        put_roots(prepared, change, &mut self.roots);
        self.head = change.head;
    }
}

// Puts the roots after a change into the place of those before: a block alone doesn't change them.
fn put_roots(prepared: &Prepared<'_>, change: &Change, place: &mut Roots)
    requires same { prepared.now.upgrade ≡ None → place.old ≡ change.now.roots }
    ensures { place.new ≡ change.now.roots }
{
    if prepared.upgrade_length().is_none() {
        return;
    }
    place.clear();
    place.extend(change.roots.as_slice());
}

// The root hash after a change: a block alone doesn't change it.
fn root_after(prepared: &Prepared<'_>, change: &Change, root: &[u8; 32]) -> [u8; 32]
    requires same { prepared.now.upgrade ≡ None → root.now ≡ root_hash_of change.now.roots }
    ensures { result ≡ root_hash_of change.now.roots }
{
    match prepared.upgrade_length() {
        Some(_) => root_hash(&change.roots),
        None => *root,
    }
}

// Takes the memory for places up to the length of a change, and for its nodes.
fn take_room(
    alloc: Global,
    held: &mut Bits,
    nodes: &mut Nodes,
    blocks: &mut Vec<Blob>,
    change: &Change,
) -> Result<(), Memory>
    requires few { change.now.head.length ≤ MAX_BLOCKS }
    ensures places { OnOk result (change.now.head.length ≤ length held.new) }
    ensures room { OnOk result (change.now.head.length ≤ vec_capacity blocks.new) }
    ensures nodes { OnOk result (AllByRecursion
        (λ (node : Node). has_place nodes.new node.index ≡ true) change.now.fresh) }
    ensures idle { change.now.head.length ≤ length held.old → change.now.head.length ≤ vec_capacity blocks.old
        → AllByRecursion (λ (node : Node). has_place nodes.old node.index ≡ true) change.now.fresh → IsOk result }
    ensures more { length held.old ≤ length held.new }
    ensures held { (place : ℕ) → has held.new place ≡ has held.old place }
    ensures values { values_of nodes.new ≡ values_of nodes.old }
    ensures blocks { blocks.new.items ≡ blocks.old.items }
{
    let length = change.head.length;
    match make_places(alloc, held, length) {
        Ok(()) => {}
        Err(Memory) => return Err(Memory),
    }
    match nodes.reserve_all(alloc, change.fresh.as_slice()) {
        Ok(()) => {}
        Err(Memory) => return Err(Memory),
    }
    reserve_up_to(blocks, length as usize)
}

// Takes the memory for so many blocks in all.
fn reserve_up_to(blocks: &mut Vec<Blob>, count: usize) -> Result<(), Memory>
    ensures room { OnOk result (count ≤ vec_capacity blocks.new) }
    ensures idle { count ≤ vec_capacity blocks.old → IsOk result }
    ensures same { blocks.new.items ≡ blocks.old.items }
{
    let many = blocks.len();
    if count <= many {
        return Ok(());
    }
    match blocks.reserve(count - many) {
        Ok(()) => Ok(()),
        Err(_) => Err(Memory),
    }
}

// Makes a place for the bytes of a block, unless it is held. Whether they lie in it already.
fn make_spare(
    alloc: Global,
    spare: &mut Option<Blob>,
    held: &Bits,
    block: &Option<BlockPart<'_>>,
) -> Result<bool, Memory>
    ensures ok { OnOk result (HasSpare (has held.now) spare.new (block_view block.now)) }
    ensures bytes { IfOk result (λ is_in. is_in ≡ true → HasBytes (has held.now) spare.new (block_view block.now)) }
    ensures idle { HasSpare (has held.now) spare.old (block_view block.now) → IsOk result }
{
    let Some(part) = block else {
        return Ok(false);
    };
    if part.index < held.places() && held.get(part.index) {
        return Ok(false);
    }
    if has_len(spare, part.bytes.len()) {
        return Ok(false);
    }
    match Blob::from_slice(alloc, part.bytes) {
        Ok(place) => {
            *spare = Some(place);
            Ok(true)
        }
        Err(Memory) => Err(Memory),
    }
}

// Whether there is a place of so many bytes.
fn has_len(spare: &Option<Blob>, len: usize) -> bool
    ensures { IsTrue result ↔ (option_map (λ (bytes : List ℕ). length bytes) spare.now ≡ Some len) }
{
    match spare {
        Some(place) => place.bytes().len() == len,
        None => false,
    }
}

// Adds empty blocks up to a count.
fn fill_up(alloc: Global, blocks: &mut Vec<Blob>, count: usize)
    requires room { count ≤ vec_capacity blocks.old }
    ensures { blocks.new.items ≡ blocks.old.items ++ replicate (count - length blocks.old.items) [] }
{
    let many = blocks.len();
    if count <= many {
        return;
    }
    for _ in many..count {
        blocks.push_reserved(Blob::none(alloc));
    }
}

// Puts a block in its place, unless it is held, where its bytes may lie already.
fn put_block(
    held: &mut Bits,
    blocks: &mut Vec<Blob>,
    spare: &mut Option<Blob>,
    block: &Option<BlockPart<'_>>,
    is_in: bool,
)
    requires within { IfSome (block_view block.now) (λ b. b.index < length held.old) }
    requires there { IfSome (block_view block.now) (λ b. b.index < length blocks.old.items) }
    requires spare { HasSpare (has held.old) spare.old (block_view block.now) }
    requires bytes { is_in ≡ true → HasBytes (has held.old) spare.old (block_view block.now) }
    ensures places { length held.new ≡ length held.old }
    ensures held { (index : ℕ) → has held.new index ≡ held_put (has held.old) (block_view block.now) index }
    ensures blocks { blocks.new.items ≡ blocks_put (has held.old) (block_view block.now) blocks.old.items }
{
    let Some(part) = block else {
        return;
    };
    if held.get(part.index) {
        return;
    }
    let Some(place) = spare.take() else {
        return;
    };
    let place = filled(place, part.bytes, is_in);
    blocks[part.index as usize] = place;
    held.set_range(part.index, part.index + 1);
}

// A place with a block's bytes in it, where they may lie already.
fn filled(place: Blob, bytes: &[u8], is_in: bool) -> Blob
    requires len { length place ≡ length bytes.now }
    requires bytes { is_in ≡ true → place ≡ bytes.now }
    ensures { result ≡ bytes.now }
{
    if is_in {
        return place;
    }
    let mut place = place;
    place.bytes_mut().copy_from_slice(bytes);
    place
}
