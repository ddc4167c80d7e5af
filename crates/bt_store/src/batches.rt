//! Reads of up to eight neighbouring blocks, of which the full ones are digested together from three on.
ghost use Rattle.std.specs.Prelude.{◌≡◌, ℕ, ◌+◌, ◌*◌, ◌<◌, ◌≤◌, IfSome, None, length, map, slice_index_or};
ghost use Rattle.bt_tree.specs.Limits.{full_block_length};
ghost use Rattle.bt_tree.specs.Blocks.{block_count, block_at, block_length};
ghost use Rattle.bt_disk.specs.Calls.{HasCalls};
ghost use Rattle.bt_store.specs.BlockReads.{call_of};
ghost use Rattle.bt_store.specs.BatchesSteps.{batch_reads, found_of};
ghost use Rattle.bt_store.specs.declared.batches.BlockFound.TheVariants.{Failed};

use crate::arrival::offset_of;
use bt_disk::Disk;
use bt_tree::{BLOCK_LEN, Geometry, Hash32, NodeHash};

/// How many blocks are read, and then digested, at a time.
pub(crate) const BATCH_BLOCKS: usize = 8;

/// How many bytes these have at most.
pub(crate) const BATCH_LEN: usize = BATCH_BLOCKS * BLOCK_LEN;

/// From how many full blocks on eight parts digested together take less time than each block by itself.
const LEAST_TOGETHER: usize = 3;

/// What the read of a block found.
#[derive(Clone, Copy)]
pub(crate) enum BlockFound {
    /// The whole block, which has this digest.
    Whole(Hash32),
    /// Fewer bytes than the block has.
    Short,
    /// The read failed.
    Failed,
}

/// Reads blocks that lie next to each other, each by one call, from the first up, each into its part of a
/// buffer. Says how many bytes each read gave; none for one that failed.
pub(crate) fn read_batch<D: Disk>(
    disk: &mut D,
    geometry: Geometry,
    first: u32,
    count: usize,
    buffer: &mut [u8],
) -> [Option<usize>; BATCH_BLOCKS]
    requires few { count ≤ 8 }
    requires inside { first + count ≤ block_count geometry }
    requires room { count * full_block_length ≤ length buffer.old }
    ensures calls { HasCalls D.conduct
        disk.old (map (call_of geometry) (batch_reads first result buffer.new count)) disk.new }
    ensures within { (j : ℕ) → j < count
        → IfSome (slice_index_or result j None) (λ given. given ≤ block_length geometry
        (first + j)) }
{
    let mut lengths = [None; BATCH_BLOCKS];
    for j in 0..count {
        let block = first + j as u32;
        let from = j * BLOCK_LEN;
        let slot = &mut buffer[from..from + geometry.block_len(block)];
        lengths[j] = disk.read_at(offset_of(block), slot).ok();
    }
    lengths
}

/// What the reads of blocks that lie next to each other found, by how many bytes each gave. Where enough of
/// them are full they are digested together.
pub(crate) fn digest_batch<H: NodeHash>(
    hash: H,
    geometry: Geometry,
    first: u32,
    count: usize,
    lengths: &[Option<usize>; BATCH_BLOCKS],
    buffer: &[u8],
) -> [BlockFound; BATCH_BLOCKS]
    requires few { count ≤ 8 }
    requires inside { first + count ≤ block_count geometry }
    requires room { count * full_block_length ≤ length buffer.now }
    ensures { (j : ℕ) → j < count → slice_index_or result j Failed
        ≡ found_of H.digest geometry (first + j) (slice_index_or lengths.now j None)
        (block_at buffer.now j) }
{
    let together = digest_together(hash, lengths, buffer);
    let mut blocks_found = [BlockFound::Failed; BATCH_BLOCKS];
    for j in 0..count {
        let from = j * BLOCK_LEN;
        let slot = &buffer[from..from + BLOCK_LEN];
        let block = first + j as u32;
        blocks_found[j] = find_slot(hash, geometry, block, lengths[j], slot, together[j]);
    }
    blocks_found
}

/// The digests of the eight parts of a buffer, made together: none where it has fewer parts, or where so few
/// reads filled theirs that these are digested sooner one by one. A part that no read filled costs nothing
/// more, and nobody asks for its digest.
fn digest_together<H: NodeHash>(
    hash: H,
    lengths: &[Option<usize>; BATCH_BLOCKS],
    buffer: &[u8],
) -> [Option<Hash32>; BATCH_BLOCKS]
    ensures { (j : ℕ) → j < 8
        → IfSome (slice_index_or result j None) (λ digest. digest ≡ H.digest
        (block_at buffer.now j)) }
{
    let mut together = [None; BATCH_BLOCKS];
    if buffer.len() < BATCH_LEN || full_count(lengths) < LEAST_TOGETHER {
        return together;
    }
    let digests = hash.blocks8(&buffer[..BATCH_LEN]);
    for j in 0..BATCH_BLOCKS {
        together[j] = Some(digests[j]);
    }
    together
}

/// How many reads gave a full block.
fn full_count(lengths: &[Option<usize>; BATCH_BLOCKS]) -> usize {
    lengths
        .iter()
        .filter(|length| **length == Some(BLOCK_LEN))
        .count()
}

/// What the read of a block found, by how many bytes it gave into its part of the buffer, where the digest of
/// that part may be known.
fn find_slot<H: NodeHash>(
    hash: H,
    geometry: Geometry,
    block: u32,
    given: Option<usize>,
    slot: &[u8],
    known: Option<Hash32>,
) -> BlockFound
    requires inside { block < block_count geometry }
    requires room { length slot.now ≡ full_block_length }
    requires known { IfSome known (λ digest. digest ≡ H.digest slot.now) }
    ensures { result ≡ found_of H.digest geometry block given slot.now }
{
    match known {
        Some(digest) if given == Some(BLOCK_LEN) && geometry.block_len(block) == BLOCK_LEN => {
            BlockFound::Whole(digest)
        }
        _ => digest_slot(hash, geometry, block, given, slot),
    }
}

/// What the read of a block found, by how many bytes it gave into its part of the buffer.
pub(crate) fn digest_slot<H: NodeHash>(
    hash: H,
    geometry: Geometry,
    block: u32,
    given: Option<usize>,
    slot: &[u8],
) -> BlockFound
    requires inside { block < block_count geometry }
    requires room { block_length geometry block ≤ length slot.now }
    ensures { result ≡ found_of H.digest geometry block given slot.now }
{
    match given {
        Some(length) if length == geometry.block_len(block) => {
            BlockFound::Whole(hash.block(&slot[..length]))
        }
        Some(_) => BlockFound::Short,
        None => BlockFound::Failed,
    }
}
