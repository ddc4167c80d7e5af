//! Laws of a store: what `read` lends is the file's, or two different inputs have one digest; and what
//! `adopt`, `settle` and `restore` make of the blocks that they read.
ghost use Rattle.bt_store.specs.Law.{RightBlocksAreFiles, AdoptMarksByBytes, AcceptedReadsAreRight, AdoptExtends, ReadsDecideEach, WaitingBlocksDiffer, WaitingBlocksLieInside, RecalledAreJudgedAlike, RestoreJudges};

use bt_sparse::leaves_are_files;
use bt_tree::NodeHash;

/// What `read` lends is the block of every file of the tree's length and root; or at one node on the
/// block's path to the root, the input here is another than the file's and has the same digest.
///
/// The function does nothing when it runs.
pub fn right_blocks_are_files<H: NodeHash>(hash: H)
    ensures { RightBlocksAreFiles H.digest }
{
    leaves_are_files(hash);
}

/// Each block that `adopt` marks was read in that call with the digest of the leaf that the tree has then.
pub fn adopt_marks_by_bytes<H: NodeHash>(_hash: H)
    ensures { AdoptMarksByBytes H.digest }
{}

/// Where the blocks of a group are claimed together and the tree accepts that, the digest of each is the leaf
/// that the tree has then.
pub fn accepted_reads_are_right<H: NodeHash>(_hash: H)
    ensures { AcceptedReadsAreRight H.digest }
{}

/// The tree after `adopt` is of the same file length and root, has every value that it had, and stays rooted.
pub fn adopt_extends<H: NodeHash>(_hash: H)
    ensures { AdoptExtends H.digest }
{}

/// What `settle` leaves of each block that it reads, and of those that it doesn't.
pub fn reads_decide_each<H: NodeHash>(_hash: H)
    ensures { ReadsDecideEach H.digest }
{}

/// The blocks that `settle` reads differ from each other, and lie in the file: a range that goes past the
/// file's end has those of the range that ends there.
pub fn waiting_blocks_lie_inside<H: NodeHash>(_hash: H)
    ensures differ { WaitingBlocksDiffer H.digest }
    ensures inside { WaitingBlocksLieInside H.digest }
{}

/// Blocks that are recalled, and then read by `settle`, come to the same as where `restore` reads each of them.
pub fn recalled_blocks_are_restored<H: NodeHash>(_hash: H)
    ensures alike { RecalledAreJudgedAlike H.digest }
    ensures restored { RestoreJudges H.digest }
{}
