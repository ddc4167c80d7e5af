//! The one block or the two that a requested range lies in are read from the file's store, and the range's
//! bytes are cut from them. At the first block that is not right the reading stops.
ghost use Rattle.std.specs.Prelude.{[], ◌≡◌, ◌≢◌, ◌*◌, ◌≤◌, IfErr, IfOk, Some, drop, length, slice_get, take, vec_capacity};
ghost use Rattle.bt_tree.specs.Limits.{full_block_length};
ghost use Rattle.bt_machine.specs.Spans.{first_block, last_block, spanned_blocks};
ghost use Rattle.bt_engine_messages.specs.ServingSteps.{AreReadRight, IsMarkedSpan, IsReadRight, IsReadWrong, IsRoomFor, SendsSpan, StopAtFault, one_or_two};
ghost use Rattle.bt_engine_messages.specs.SpansSteps.{IsShortSpan};

use crate::spans::{first_block, last_block};
use bt_disk::Disk;
use bt_meta::Span;
use bt_sparse::SparseTree;
use bt_store::{BlockState, FileStore, ReadError};
use bt_tree::{BLOCK_LEN, NodeHash};
use std::alloc::{AllocError, Global};

/// Why a marked block was not read.
#[derive(Clone, Copy, Debug, PartialEq, Eq)]
pub(crate) enum ReadFault {
    /// The bytes are not the block's, which is missing from now on.
    Damaged(u32),
    /// The device failed.
    Device,
}

/// Room to read a span.
#[derive(Debug, Drop)]
pub(crate) struct SpanBuffers {
    /// For the one block or the two that it lies in.
    pub blocks: Vec<u8>,
    /// For its own bytes.
    pub bytes: Vec<u8>,
}

/// Room to read a span, no more than it needs. Errors: out of memory.
pub(crate) fn room_for(alloc: Global, span: Span) -> Result<SpanBuffers, AllocError>
    requires { IsShortSpan span }
    ensures { IfOk result (IsRoomFor span) }
{
    let count = if first_block(span) == last_block(span) {
        1
    } else {
        2
    };
    Ok(SpanBuffers {
        blocks: vec![in alloc; 0; count * BLOCK_LEN]?,
        bytes: Vec::with_capacity(alloc, span.length as usize)?,
    })
}

/// Reads the blocks that a span of the file lies in, and gives the bytes of the span. At the first block that
/// is not right it stops.
pub(crate) fn read_span<D: Disk + Drop, H: NodeHash>(
    store: &mut FileStore<D, H>,
    tree: &SparseTree<H>,
    span: Span,
    room: SpanBuffers,
) -> Result<Vec<u8>, ReadFault>
    requires geometry { tree.now.file_length ≡ store.old.file_length }
    requires short { IsShortSpan span }
    requires marked { IsMarkedSpan store.old.states span }
    requires room { IsRoomFor span room }
    ensures right { IfOk result (λ bytes. SendsSpan D.conduct H.digest tree.now span
        bytes.items store.old store.new) }
    ensures wrong { IfErr result (λ fault. StopAtFault D.conduct H.digest tree.now
        (spanned_blocks span) fault store.old store.new) }
    ensures same_file { store.new.file_length ≡ store.old.file_length }
{
    let SpanBuffers { mut blocks, bytes } = room;
    let (first, last) = (first_block(span), last_block(span));
    match read_blocks(store, tree, first, last, blocks.as_mut_slice()) {
        Ok(count) => {
            let offset = (span.start % BLOCK_LEN as u64) as usize;
            Ok(cut(
                blocks.as_slice(),
                count,
                offset,
                span.length as usize,
                bytes,
            ))
        }
        Err(fault) => Err(fault),
    }
}

/// Reads the one block or the two, up to the first that is not right, and says how many bytes they have.
fn read_blocks<D: Disk + Drop, H: NodeHash>(
    store: &mut FileStore<D, H>,
    tree: &SparseTree<H>,
    first: u32,
    last: u32,
    out: &mut [u8],
) -> Result<usize, ReadFault>
    requires geometry { tree.now.file_length ≡ store.old.file_length }
    requires room { full_block_length ≤ length out.old }
    requires two { first ≢ last → 2 * full_block_length ≤ length out.old }
    requires first { slice_get store.old.states first ≡ Some BlockState.Marked }
    requires last { slice_get store.old.states last ≡ Some BlockState.Marked }
    ensures right { IfOk result (λ count. AreReadRight D.conduct H.digest tree.now
        (one_or_two first last) (take count out.new) store.old store.new) }
    ensures wrong { IfErr result (λ fault. StopAtFault D.conduct H.digest tree.now
        (one_or_two first last) fault store.old store.new) }
{
    let count = read_block(store, tree, first, out)?;
    if first == last {
        return Ok(count);
    }
    let more = read_block(store, tree, last, &mut out[count..])?;
    Ok(count + more)
}

/// Reads a marked block, and says how many bytes it has.
fn read_block<D: Disk + Drop, H: NodeHash>(
    store: &mut FileStore<D, H>,
    tree: &SparseTree<H>,
    block: u32,
    out: &mut [u8],
) -> Result<usize, ReadFault>
    requires geometry { tree.now.file_length ≡ store.old.file_length }
    requires room { full_block_length ≤ length out.old }
    requires marked { slice_get store.old.states block ≡ Some BlockState.Marked }
    ensures right { IfOk result (λ count. IsReadRight D.conduct H.digest tree.now
        block (take count out.new) store.old store.new) }
    ensures within { IfOk result (λ count. count ≤ full_block_length) }
    ensures wrong { IfErr result (λ fault. IsReadWrong D.conduct H.digest tree.now
        block fault store.old store.new) }
{
    match store.read(tree, block, out) {
        Ok(count) => Ok(count),
        Err(ReadError::Damaged) => Err(ReadFault::Damaged(block)),
        Err(ReadError::Device) => Err(ReadFault::Device),
        Err(ReadError::NotMarked) => unreachable!(),
    }
}

/// Of the first `count` bytes, `length` from the one at `offset` on, in an empty list that has room for them.
fn cut(read: &[u8], count: usize, offset: usize, length: usize, bytes: Vec<u8>) -> Vec<u8>
    requires nothing { bytes.items ≡ [] }
    requires room { length ≤ vec_capacity bytes }
    ensures { result.items ≡ take length (drop offset (take count read.now)) }
{
    let all = &read[..count.min(read.len())];
    let rest = &all[offset.min(all.len())..];
    let mut bytes = bytes;
    bytes
        .extend_from_slice(&rest[..length.min(rest.len())])
        .unwrap();
    bytes
}
