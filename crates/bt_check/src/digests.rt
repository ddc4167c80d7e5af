//! The digests that a torrent says of a file, from one reading of its bytes.
ghost use Rattle.std.specs.Prelude.{◌≡◌, ℕ, ◌≤◌, ◌⊎◌, [], IfOk, IfErr, IfSome};
ghost use Rattle.bt_tree.specs.Blocks.{block_count};
ghost use Rattle.bt_tree.specs.TreeShape.{height_of};
ghost use Rattle.bt_check.specs.Fault.{device, out_of_memory};
ghost use Rattle.bt_check.specs.DigestSteps.{GivesLayer, GivesFile};
ghost use Rattle.bt_check.specs.Digests.{AreDigestsOf, GivesAll, IsDigestFault};

use crate::fault::Fault;
use crate::file_hash::FileHash;
use crate::pieces::{PieceSize, read_pieces};
use crate::reader::{BUFFER_LEN, has_more, read_node};
use bt_meta::MakeError;
use bt_tree::{Geometry, Hash32, RootBuilder, layer_root};
use std::alloc::Global;
use std::io::Read;

/// The root of a file's tree, zeros for an empty file, and the digests of its pieces where it is longer than
/// one.
#[derive(Debug, Drop)]
pub struct Digests {
    pub root: Hash32,
    pub layer: Vec<u8>,
}

/// The digests of the bytes of a reader, which has `length` bytes. A reader that has fewer or more, as that
/// of a file that is written to, is a device fault.
pub fn digest_reader<R: Read>(
    alloc: Global,
    reader: &mut R,
    length: u64,
    size: PieceSize,
    buffer: &mut [u8; BUFFER_LEN],
) -> Result<Digests, Fault>
    // of the reader's bytes, where it tells them
    ensures told { IfSome (R.remaining reader.old)
        (λ bytes. IfOk result (AreDigestsOf bytes size.layer)) }

    // of the bytes that it gave, at every reader
    ensures given { IfOk result
        (GivesAll (R.remaining reader.old) (R.remaining reader.new) length size.layer) }
    ensures fault { IfErr result (IsDigestFault length) }
{
    let digests = match Geometry::new(length) {
        Some(geometry) => digest_file(alloc, reader, geometry, size, buffer)?,
        None if length == 0 => no_digests(alloc),
        None => return Err(Fault::Make(MakeError::FileLength)),
    };
    if has_more(reader)? {
        return Err(Fault::Device);
    }
    Ok(digests)
}

/// What is said of an empty file.
fn no_digests(alloc: Global) -> Digests
    ensures { (layer : ℕ) → AreDigestsOf [] layer result }
{
    Digests {
        root: [0; 32],
        layer: Vec::new(alloc),
    }
}

/// The digests of the next bytes of a reader, as a file of this geometry.
fn digest_file<R: Read>(
    alloc: Global,
    reader: &mut R,
    geometry: Geometry,
    size: PieceSize,
    buffer: &mut [u8; BUFFER_LEN],
) -> Result<Digests, Fault>
    ensures given { IfOk result
        (GivesFile (R.remaining reader.old) (R.remaining reader.new) geometry size.layer) }
    ensures fault { IfErr result (λ fault. (fault ≡ device) ⊎ (fault ≡ out_of_memory)) }
{
    if geometry.length() <= size.bytes as u64 {
        let builder = RootBuilder::new(FileHash, geometry);
        let found = read_node(reader, builder, geometry.length(), buffer)?;
        let root = found.ok_or(Fault::Device)?;
        return Ok(Digests {
            root,
            layer: Vec::new(alloc),
        });
    }
    let layer = read_layer(alloc, reader, geometry, size, buffer)?;
    let root = layer_root(FileHash, geometry, size.layer, layer.as_slice());
    Ok(Digests { root, layer })
}

/// The digests of the pieces that come next from a reader, 32 bytes each.
fn read_layer<R: Read>(
    alloc: Global,
    reader: &mut R,
    geometry: Geometry,
    size: PieceSize,
    buffer: &mut [u8; BUFFER_LEN],
) -> Result<Vec<u8>, Fault>
    requires { size.layer ≤ height_of (block_count geometry) }
    ensures given { IfOk result (λ layer. GivesLayer
        (R.remaining reader.old) (R.remaining reader.new) geometry size.layer layer.items) }
    ensures fault { IfErr result (λ fault. (fault ≡ device) ⊎ (fault ≡ out_of_memory)) }
{
    let mut layer = Vec::new(alloc);
    let mut index = 0;
    let mut rest = geometry.length();
    while rest > 0 {
        let Some(pieces) = read_pieces(reader, geometry, size, index, rest, buffer)? else {
            return Err(Fault::Device);
        };
        layer.extend_from_slice(pieces.digests[..pieces.count as usize].as_flattened())?;
        index += pieces.count;
        rest -= pieces.bytes;
    }
    Ok(layer)
}
