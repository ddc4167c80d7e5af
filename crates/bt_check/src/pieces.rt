//! The pieces of a file, and the layer of its tree whose nodes cover one each (BEP 52).
ghost use Rattle.std.specs.Prelude.{◌≡◌, ℕ, ◌+◌, ◌*◌, ◌^◌, ◌<◌, ◌≤◌, ◌↔◌, ◌++◌, [], slice_index_or, IsSome, IfOk, IfNone, IfSome, OnErr};
ghost use Rattle.sha2.specs.Sha256.{sha256};
ghost use Rattle.bt_tree.specs.Blocks.{block_count};
ghost use Rattle.bt_tree.specs.Peaks.{row_node};
ghost use Rattle.bt_tree.specs.TreeShape.{height_of, real_width, IsPieceLength};
ghost use Rattle.bt_tree.specs.Limits.{full_block_length, max_piece_layer};
ghost use Rattle.bt_check.specs.Reader.{LosesFront, EndsEarly};
ghost use Rattle.bt_check.specs.Pieces.{piece_start, piece_size, GivesPiece, GivesPieces};

use crate::file_hash::FileHash;
use crate::reader::{BUFFER_LEN, fill, read_node};
use bt_disk::DeviceFault;
use bt_tree::{Geometry, Hash32, NodeHash, RootBuilder, is_piece_length, piece_layer};
use std::io::Read;

/// How long a torrent's pieces are, and the layer whose nodes cover a piece each.
#[derive(Clone, Copy, Debug)]
pub struct PieceSize {
    pub bytes: u32,
    pub layer: u8,
    ghost of_layer: { bytes ≡ full_block_length * 2 ^ layer },
    ghost limit: { layer ≤ max_piece_layer },
}

impl PieceSize {
    /// The size of pieces of this length in bytes; none where it is no power of two from 2^14 to 2^28.
    pub fn new(bytes: u32) -> Option<PieceSize>
        ensures variant { IsSome result ↔ IsPieceLength bytes }
        ensures value { IfSome result (λ size. size.bytes ≡ bytes) }
    {
        if !is_piece_length(bytes) {
            return None;
        }
        let layer = piece_layer(bytes);
        Some(PieceSize { bytes, layer })
    }
}

/// Reads the bytes of a piece, `size` in number, and gives the digest of its node: none where the bytes end
/// before. Errors: a read failed.
pub fn read_piece<R: Read>(
    reader: &mut R,
    geometry: Geometry,
    layer: u8,
    index: u32,
    size: u64,
    buffer: &mut [u8; BUFFER_LEN],
) -> Result<Option<Hash32>, DeviceFault>
    requires inside { layer ≤ height_of (block_count geometry) }
    requires real { index < real_width (block_count geometry) layer }
    requires size { size ≡ piece_size geometry layer index }
    ensures early { IfOk result
        (λ found. IfNone found (EndsEarly (R.remaining reader.old) (R.remaining reader.new) size)) }
    ensures node { IfOk result (λ found. IfSome found
        (GivesPiece (R.remaining reader.old) (R.remaining reader.new) geometry layer index size)) }
    ensures err { OnErr result (LosesFront (R.remaining reader.old) (R.remaining reader.new)) }
{
    let builder = RootBuilder::for_node(FileHash, geometry, layer, index);
    read_node(reader, builder, size, buffer)
}

/// The digests of one to eight pieces that lie next to each other, the first ones of `digests`, and how many
/// bytes these pieces have together.
#[derive(Clone, Copy)]
pub struct PieceRun {
    pub digests: [Hash32; 8],
    pub count: u32,
    pub bytes: u64,
}

/// Reads the pieces that come next, from this one on, where `rest` bytes of the file are left, and gives
/// their digests: none where the bytes end before. Pieces of fewer than eight blocks are read by eight whole
/// blocks, as long as eight are left, and any other piece by itself. Errors: a read failed.
pub fn read_pieces<R: Read>(
    reader: &mut R,
    geometry: Geometry,
    size: PieceSize,
    index: u32,
    rest: u64,
    buffer: &mut [u8; BUFFER_LEN],
) -> Result<Option<PieceRun>, DeviceFault>
    requires inside { size.layer ≤ height_of (block_count geometry) }
    requires some { 0 < rest }
    requires rest { piece_start size.layer index + rest ≡ geometry }
    ensures { IfOk result (λ found. IfSome found
        (GivesPieces (R.remaining reader.old) (R.remaining reader.new) geometry size.layer index)) }
{
    if size.layer < 3 && rest >= BUFFER_LEN as u64 {
        return read_eight(reader, size.layer, buffer);
    }
    let bytes = rest.min(size.bytes as u64);
    let Some(digest) = read_piece(reader, geometry, size.layer, index, bytes, buffer)? else {
        return Ok(None);
    };
    Ok(Some(PieceRun {
        digests: [digest; 8],
        count: 1,
        bytes,
    }))
}

/// Reads eight whole blocks, which are pieces of this layer, and gives the pieces' digests: none where the
/// bytes end before.
fn read_eight<R: Read>(
    reader: &mut R,
    layer: u8,
    buffer: &mut [u8; BUFFER_LEN],
) -> Result<Option<PieceRun>, DeviceFault>
    requires { layer < 3 }
    ensures { IfOk result (λ found. IfSome found (λ run. (file_length index : ℕ)
        → piece_start layer index + 8 * full_block_length ≤ file_length
        → GivesPieces (R.remaining reader.old) (R.remaining reader.new) file_length layer
        index run)) }
{
    if fill(reader, buffer)? < BUFFER_LEN {
        return Ok(None);
    }
    let blocks = FileHash.blocks8(buffer);
    Ok(Some(PieceRun {
        digests: row_above(blocks, layer),
        count: 8 >> layer,
        bytes: BUFFER_LEN as u64,
    }))
}

/// The digests of the nodes `layers` layers above eight nodes that lie next to each other: the first ones of
/// the result, as many as lie above the eight alone.
fn row_above(nodes: [Hash32; 8], layers: u8) -> [Hash32; 8]
    ensures { (j : ℕ) → (j + 1) * 2 ^ layers ≤ 8
        → slice_index_or result j [] ≡ row_node sha256 (λ i. slice_index_or nodes i []) layers j }
{
    let mut nodes = nodes;
    for _ in 0..layers {
        nodes = parents(&nodes);
    }
    nodes
}

/// The digests of the parents of eight nodes that lie next to each other: the first four of the result.
fn parents(nodes: &[Hash32; 8]) -> [Hash32; 8]
    ensures { (j : ℕ) → j < 4 → slice_index_or result j []
        ≡ sha256 (slice_index_or nodes.now (2 * j) [] ++ slice_index_or nodes.now (2 * j + 1) []) }
{
    let mut above = [[0; 32]; 8];
    for j in 0..4usize {
        above[j] = FileHash.pair(&nodes[2 * j], &nodes[2 * j + 1]);
    }
    above
}
