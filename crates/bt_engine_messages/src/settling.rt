//! Blocks of a file that wait and whose leaf is known are read back, and a note says what became of each.
ghost use Rattle.std.specs.Prelude.{◌≡◌, ◌+◌, ◌≤◌};
ghost use Rattle.std.specs.Vec.{vec_len, vec_capacity};
ghost use Rattle.bt_tree.specs.Blocks.{block_count};
ghost use Rattle.bt_sparse.specs.Answer.{max_run_length};
ghost use Rattle.bt_store.specs.Review.{waiting_blocks};
ghost use Rattle.bt_engine_messages.specs.NoteRooms.{note_room};
ghost use Rattle.bt_engine_messages.specs.SettlingSteps.{SettlesBlocks, note_at, is_due};

use arrayvec::ArrayVec;
use bt_book::BlockId;
use bt_disk::Disk;
use bt_machine::Note;
use bt_sparse::SparseTree;
use bt_store::{BlockState, FileStore};
use bt_tree::NodeHash;

/// Reads back those of `count` blocks of this file from `from` on that wait and whose leaf is known, eight at
/// a time where they lie next to each other, and adds to the notes what became of each, and then whether the
/// device failed. The notes have room for that.
pub(crate) fn settle_blocks<D: Disk + Drop, H: NodeHash>(
    notes: &mut Vec<Note>,
    file: u32,
    store: &mut FileStore<D, H>,
    tree: &SparseTree<H>,
    from: u32,
    count: u32,
)
    requires geometry { tree.now.file_length ≡ store.old.file_length }
    requires inside { from + count ≤ block_count store.old.file_length }
    requires few { count ≤ max_run_length }
    requires room { vec_len notes.old + note_room count store.old.states ≤ vec_capacity notes.old }
    ensures settles { SettlesBlocks D.conduct H.digest tree.now file from count
        store.old notes.old.items notes.new.items store.new }
    ensures same_file { store.new.file_length ≡ store.old.file_length }
    ensures few { vec_len notes.new ≤ vec_len notes.old + note_room count store.old.states }
    ensures capacity { vec_capacity notes.old ≤ vec_capacity notes.new }
{
    let due = due_blocks(store, tree, from, count);
    let settled = store.settle(tree, from, count).unwrap();
    for block in due.as_slice() {
        notes.push(note_of(store, file, *block)).unwrap();
    }
    if settled.faults > 0 {
        notes.push(Note::Device(file)).unwrap();
    }
}

/// Those blocks that wait and whose leaf is known.
fn due_blocks<D: Disk + Drop, H: NodeHash>(
    store: &FileStore<D, H>,
    tree: &SparseTree<H>,
    from: u32,
    count: u32,
) -> ArrayVec<u32, 512>
    requires inside { from + count ≤ block_count store.now.file_length }
    requires few { count ≤ max_run_length }
    ensures { result.items ≡ waiting_blocks H.digest tree.now store.now.states from count }
{
    let mut blocks = ArrayVec::new();
    // The clause of this number says that a file has few blocks.
    let _ = store.geometry().blocks();
    for block in from..from + count {
        if is_due(store, tree, block) {
            blocks.push(block);
        }
    }
    blocks
}

/// Whether a block waits and its leaf is known.
fn is_due<D: Disk + Drop, H: NodeHash>(
    store: &FileStore<D, H>,
    tree: &SparseTree<H>,
    block: u32,
) -> bool
    ensures { result ≡ is_due H.digest tree.now store.now.states block }
{
    store.state(block) == Some(BlockState::Waiting) && tree.known(0, block).is_some()
}

/// What became of a block that was read back.
fn note_of<D: Disk + Drop, H: NodeHash>(store: &FileStore<D, H>, file: u32, block: u32) -> Note
    ensures { result ≡ note_at file store.now.states block }
{
    let block_id = BlockId { file, block };
    if store.state(block) == Some(BlockState::Marked) {
        Note::Marked(block_id)
    } else {
        Note::Freed(block_id)
    }
}
