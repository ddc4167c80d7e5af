//! Checking a data file on its device, piece by piece (BEP 52).
ghost use Rattle.std.specs.Prelude.{◌≡◌, ◌<◌, ◌≤◌, ◌↔◌, [], ◌∷◌, ℕ, List, Option, false, IsTrue, IsSomeAnd, IfOk};
ghost use Rattle.bt_tree.specs.Blocks.{IsFileLength, block_count};
ghost use Rattle.bt_tree.specs.Limits.{max_file_length};
ghost use Rattle.bt_disk.specs.Calls.{HasCalls};
ghost use Rattle.bt_meta.specs.Files.{file_of};
ghost use Rattle.bt_check.specs.CheckSteps.{HoldsLeaves, ChecksBlocks, ChecksTree, FindsBytes, IsKnownTree};
ghost use Rattle.bt_check.specs.EntryCheck.{Answers, IsCheckable, IsEntryCheck, len_call_of};
ghost use Rattle.bt_check.specs.Finding.{KnownLayer, known_layer, no_leaves};

use crate::data_file::Finding;
use crate::file_hash::FileHash;
use crate::pieces::PieceSize;
use bt_disk::Disk;
use bt_meta::FileEntry;
use bt_sparse::SparseTree;
use bt_store::FileStore;
use bt_tree::Geometry;
use std::alloc::{AllocError, Global};

/// What a check found of a data file, and its device.
#[derive(Drop)]
pub struct EntryCheck<D: Disk + Drop> {
    pub disk: D,
    pub finding: Finding,
}

/// What is found of a file of this length where there is no data file: it is not longer, and none of its
/// blocks are marked.
pub fn absent_finding(length: u64) -> Finding
    requires { length ≤ max_file_length }
    ensures { result ≡ record {
      blocks = block_count length;
      marked = 0;
      longer = false;
      faulty = false;
    } }
{
    let blocks = match Geometry::new(length) {
        Some(geometry) => geometry.blocks(),
        None => 0,
    };
    Finding {
        blocks,
        marked: 0,
        longer: false,
        faulty: false,
    }
}

/// Checks the device of an empty file, which has no tree.
pub fn check_empty<D: Disk + Drop>(disk: D) -> EntryCheck<D>
    ensures { (len : Option ℕ) × ((known : KnownLayer) (leaves : ℕ → Option (List ℕ))
        → IsEntryCheck D.conduct
        0 known leaves disk (record { len = len; reads = [] }) result.disk result.finding) }
{
    let mut disk = disk;
    let length = length_of(&mut disk);
    let longer = is_longer(length, 0);
    let unknown = length.is_none();
    EntryCheck {
        disk,
        finding: Finding {
            blocks: 0,
            marked: 0,
            longer,
            faulty: unknown,
        },
    }
}

/// Checks the device of a file by what its tree knows; the tree learns the leaves of pieces that are right.
///
/// The device is asked for its length, and then each block is read, in turn, also after a call that failed. The blocks
/// of a piece are marked where each was read whole and the piece has its digest; where the tree knows leaves already,
/// by an earlier file, each block is marked by its own. Errors: out of memory.
pub fn check_tree<D: Disk + Drop>(
    alloc: Global,
    disk: D,
    tree: &mut SparseTree<FileHash>,
) -> Result<EntryCheck<D>, AllocError>
    requires { IsKnownTree tree.old }
    ensures answered { IfOk result
        (λ check. ChecksTree D.conduct tree.old disk check tree.new) }
    ensures honest { D.conduct.honest disk
        → IfOk result (λ check. FindsBytes (D.conduct.history disk).now.bytes tree.old
        check.finding) }
{
    let mut disk = disk;
    let length = length_of(&mut disk);
    let geometry = tree.geometry();
    let longer = is_longer(length, geometry.length());
    let unknown = length.is_none();
    let check = check_blocks(alloc, disk, tree)?;
    let finding = Finding {
        blocks: geometry.blocks(),
        marked: check.marked,
        longer,
        faulty: unknown | check.faulty,
    };
    Ok(EntryCheck {
        disk: check.disk,
        finding,
    })
}

/// How many bytes a device has; none where the call failed.
pub fn length_of<D: Disk>(disk: &mut D) -> Option<u64>
    ensures { HasCalls D.conduct disk.old (len_call_of result ∷ []) disk.new }
{
    match disk.len() {
        Ok(length) => Some(length),
        Err(_) => None,
    }
}

/// Whether a device has more bytes than a file; not where its length is not known.
fn is_longer(length: Option<u64>, file_length: u64) -> bool
    ensures { IsTrue result ↔ IsSomeAnd length (λ length. file_length < length) }
{
    match length {
        Some(length) => length > file_length,
        None => false,
    }
}

/// How many blocks of a file are right, whether a read failed, and the file's device.
#[derive(Drop)]
struct BlockCheck<D: Disk + Drop> {
    disk: D,
    marked: u32,
    faulty: bool,
}

/// Reads the blocks of a file group by group, as a store takes them in; small groups are digested together.
fn check_blocks<D: Disk + Drop>(
    alloc: Global,
    disk: D,
    tree: &mut SparseTree<FileHash>,
) -> Result<BlockCheck<D>, AllocError>
    requires { IsKnownTree tree.old }
    ensures { IfOk result
        (λ check. ChecksBlocks D.conduct tree.old disk check tree.new) }
{
    let geometry = tree.geometry();
    let Ok(mut store) = FileStore::create(alloc, disk, FileHash, geometry) else {
        return Err(AllocError);
    };
    let mut from = 0;
    let mut marked = 0;
    let mut faulty = false;
    while from < geometry.blocks() {
        let adopted = store.adopt_groups(tree, from)?;
        marked += adopted.marked;
        faulty |= adopted.faults > 0;
        from = adopted.next;
    }
    Ok(BlockCheck {
        disk: store.into_disk(),
        marked,
        faulty,
    })
}

/// The tree of a file as a torrent tells it: down to the layer of its pieces, or the root alone. Errors: out of memory.
pub fn known_tree(
    alloc: Global,
    geometry: Geometry,
    entry: &FileEntry,
    size: PieceSize,
) -> Result<SparseTree<FileHash>, AllocError>
    requires checkable { IsCheckable size.layer (file_of entry.now) }
    requires length { geometry ≡ entry.now.length }
    requires lawful { IsFileLength geometry }
    ensures { IfOk result (HoldsLeaves geometry (known_layer size.layer (file_of entry.now))
        no_leaves) }
{
    let layer = size.layer;
    SparseTree::from_torrent(alloc, FileHash, geometry, entry.root, layer, &entry.layer)
}
