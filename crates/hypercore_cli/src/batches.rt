//! The lines of an input as blocks at the end of a core, in batches.
ghost use Rattle.std.specs.Prelude.{◌≡◌, ◌<◌, ◌≤◌, ℕ, List, [], ◌∷◌, ◌++◌, length, OnOk, IfErr};
ghost use Rattle.std.specs.List.{AllByRecursion};
ghost use Rattle.flat_tree.specs.declared.limits.TheConstants.{MAX_BATCH_BLOCKS, MAX_BATCH_BYTES};
ghost use Rattle.node_set.specs.declared.fault.CoreFault.TheVariants.{Memory as MemoryFault};
ghost use Rattle.hypercore_cli.specs.Batches.{is_full_for, last_of, batches_within, blocks_of, AreBatches};
ghost use Rattle.hypercore_cli.specs.Logs.{fresh_lines};
ghost use Rattle.hypercore_cli.specs.Appends.{AppendsTo, Commits, TakesLine};

use core_disk::DiskCore;
use disk_trait::Disk;
use flat_tree::{MAX_BATCH_BLOCKS, MAX_BATCH_BYTES, MAX_BLOCK_BYTES, MAX_BLOCKS};
use merkle_nodes::What;
use node_set::CoreFault;
use outside_traits::{Blobs, LineFault, Lines, Signer, Source};
use std::alloc::Global;

/// Why lines aren't appended any further.
#[derive(Clone, Copy, Debug, PartialEq, Eq)]
pub enum AppendFault {
    /// The input failed.
    ReadFault,
    /// A line has more bytes than a block may have.
    TooLong,
    /// Want of memory, or the core refused a batch or failed in it.
    Core(CoreFault),
}

/// Appends the lines of an input to a core, in batches: one is committed where the next line would pass its limits,
/// and the last where the input ended. After a fault the batches committed before stay, and the lines behind them are
/// dropped.
pub fn append_lines<I: Source, D: Disk, A: Signer>(
    alloc: Global,
    core: &mut DiskCore<D, A>,
    input: &mut I,
) -> Result<(), AppendFault>
    ensures { AppendsTo D.disk A.accepts (I.source input.old) (I.source input.new)
        core.old core.new result }
{
    match Lines::new(alloc, MAX_BLOCK_BYTES as usize) {
        Ok(mut lines) => append_all(alloc, core, &mut lines, input),
        Err(_) => Err(AppendFault::Core(CoreFault::Memory)),
    }
}

// Appends each line.
fn append_all<I: Source, D: Disk, A: Signer>(
    alloc: Global,
    core: &mut DiskCore<D, A>,
    lines: &mut Lines,
    input: &mut I,
) -> Result<(), AppendFault>
    requires { lines.old ≡ fresh_lines }
    ensures { AppendsTo D.disk A.accepts (I.source input.old) (I.source input.new)
        core.old core.new result }
{
    let mut batch = Blobs::new();
    for _ in 0..u64::MAX {
        match lines.next(input) {
            Ok(true) => {}
            Ok(false) => {
                return match commit_last(alloc, core, &batch) {
                    Ok(()) => Ok(()),
                    Err(fault) => Err(AppendFault::Core(fault)),
                };
            }
            Err(LineFault::Failed) => return Err(AppendFault::ReadFault),
            Err(LineFault::TooLong) => return Err(AppendFault::TooLong),
        }
        match take_line(alloc, core, &mut batch, lines.line()) {
            Ok(()) => {}
            Err(fault) => return Err(AppendFault::Core(fault)),
        }
    }
    // no core has so many blocks
    Err(AppendFault::Core(CoreFault::Limit {
        what: What::Blocks,
        max: MAX_BLOCKS,
    }))
}

// Takes a line into the open batch. One that has no room for it is committed first.
fn take_line<D: Disk, A: Signer>(
    alloc: Global,
    core: &mut DiskCore<D, A>,
    batch: &mut Blobs,
    line: &[u8],
) -> Result<(), CoreFault>
    ensures { TakesLine D.disk A.accepts core.old core.new batch.old batch.new line.now result }
{
    if !is_full(batch, line) {
        return push(alloc, batch, line);
    }
    match commit(alloc, core, batch) {
        Ok(()) => {}
        Err(fault) => return Err(fault),
    }
    batch.clear();
    push(alloc, batch, line)
}

// Whether the batch with the line would have more blocks or more bytes than it may have.
fn is_full(batch: &Blobs, line: &[u8]) -> bool
    ensures { result ≡ is_full_for MAX_BATCH_BLOCKS MAX_BATCH_BYTES batch.now line.now }
{
    batch.len() >= MAX_BATCH_BLOCKS || (batch.flat().len() + line.len()) as u64 > MAX_BATCH_BYTES
}

fn push(alloc: Global, batch: &mut Blobs, line: &[u8]) -> Result<(), CoreFault>
    ensures ok { OnOk result (batch.new ≡ batch.old ++ line.now ∷ []) }
    ensures err { IfErr result (λ fault. fault ≡ MemoryFault) }
{
    match batch.push(alloc, line) {
        Ok(()) => Ok(()),
        Err(_) => Err(CoreFault::Memory),
    }
}

// Commits the batch that is open at the input's end. Where there was no line it is empty, and there is no commit.
fn commit_last<D: Disk, A: Signer>(
    alloc: Global,
    core: &mut DiskCore<D, A>,
    batch: &Blobs,
) -> Result<(), CoreFault>
    ensures { Commits D.disk A.accepts (last_of batch.now) core.old core.new result }
{
    if batch.len() == 0 {
        return Ok(());
    }
    commit(alloc, core, batch)
}

fn commit<D: Disk, A: Signer>(
    alloc: Global,
    core: &mut DiskCore<D, A>,
    batch: &Blobs,
) -> Result<(), CoreFault>
    ensures { Commits D.disk A.accepts (batch.now ∷ []) core.old core.new result }
{
    match core.append(alloc, batch) {
        Ok(_) => Ok(()),
        Err(fault) => Err(fault),
    }
}

/// The batches of some blocks are the one way to cut them such that each batch is within its limits and none is closed
/// before the next block would pass one. Nothing runs.
pub fn batches_in_words()
    ensures cut { (most_blocks most_bytes : ℕ) → (blocks : List (List ℕ)) → 0 < most_blocks
        → AllByRecursion (λ block. length block ≤ most_bytes) blocks
        → AreBatches most_blocks most_bytes (batches_within most_blocks most_bytes blocks) }
    ensures joined { (most_blocks most_bytes : ℕ) → (blocks : List (List ℕ))
        → blocks_of (batches_within most_blocks most_bytes blocks) ≡ blocks }
    ensures only { (most_blocks most_bytes : ℕ) → (batches : List (List (List ℕ)))
        → AreBatches most_blocks most_bytes batches
        → batches_within most_blocks most_bytes (blocks_of batches) ≡ batches }
{}
