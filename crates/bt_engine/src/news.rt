//! What a wire event makes whole and complete, read off its notes: it costs as much as the event has notes,
//! however large the torrent is.
ghost use Rattle.std.specs.Prelude.{◌≡◌, ◌+◌, ◌*◌, ◌≤◌, ◌<◌, ◌++◌, length, vec_len, vec_capacity};
ghost use Rattle.bt_meta.specs.PieceBlocks.{HasBlock};
ghost use Rattle.bt_meta.specs.Torrent.{total_pieces};
ghost use Rattle.bt_book.specs.declared.names.BlockId.{BlockId as Block};
ghost use Rattle.bt_machine.specs.State.{EngineState};
ghost use Rattle.bt_machine.specs.Blocks.{is_complete};
ghost use Rattle.bt_engine_state.specs.Parts.{state_of};
ghost use Rattle.bt_engine_state.specs.Ties.{IsTied};
ghost use Rattle.bt_engine_state.specs.Handling.{AreInShape};
ghost use Rattle.bt_engine.specs.NewsSteps.{TellMarks, marked_piece, marked_file, unless_last, haves_of, notes_if_complete, haves_by, complete_by};

use bt_book::PeerKey;
use bt_disk::Disk;
use bt_engine_state::Parts;
use bt_machine::{Frame, Note};
use bt_meta::Torrent;
use bt_tree::NodeHash;
use bt_wire::Message;

/// Sends a have of each piece that has become whole, upwards, each to every peer. These are among the pieces
/// of the blocks that the notes say are marked.
pub(crate) fn announce_pieces<D: Disk + Drop, H: NodeHash>(
    parts: &Parts<D, H>,
    notes: &[Note],
    send: &mut Vec<(PeerKey, Frame)>,
)
    requires sound { AreInShape parts.now }
    requires told { (old : EngineState) × TellMarks old (state_of parts.now) notes.now }
    requires room { vec_len send.old + length notes.now * length parts.now.peers.items
        ≤ vec_capacity send.old }
    ensures sent { send.new.items ≡ send.old.items ++ haves_by (state_of parts.now) notes.now }
    ensures few { vec_len send.new ≤ vec_len send.old
        + length notes.now * length parts.now.peers.items }
    ensures capacity { vec_capacity send.old ≤ vec_capacity send.new }
{
    // What every torrent keeps to.
    parts.torrent.keeps_laws();
    let mut last = None;
    for note in notes {
        let Some(piece) = unless_last(marked_piece(&parts.torrent, note), last) else {
            continue;
        };
        last = Some(piece);
        announce_piece(parts, piece, send);
    }
}

/// Sends a have of the piece to every peer, where the piece is whole.
fn announce_piece<D: Disk + Drop, H: NodeHash>(
    parts: &Parts<D, H>,
    piece: u32,
    send: &mut Vec<(PeerKey, Frame)>,
)
    requires tied { IsTied parts.now }
    requires inside { piece < total_pieces parts.now.torrent }
    requires room { vec_len send.old + length parts.now.peers.items ≤ vec_capacity send.old }
    ensures sent { send.new.items ≡ send.old.items ++ haves_of (state_of parts.now) piece }
    ensures few { vec_len send.new ≤ vec_len send.old + length parts.now.peers.items }
    ensures capacity { vec_capacity send.old ≤ vec_capacity send.new }
{
    let unmarked = parts.counts.unmarked.as_slice();
    let left = unmarked[piece as usize];
    if left > 0 {
        return;
    }
    for peer in &parts.peers {
        send.push((peer.key, Frame::Message(Message::Have(piece))))
            .unwrap();
    }
}

/// Notes each file that has become complete, upwards. These are among the files of the blocks that the notes
/// say are marked.
pub(crate) fn note_complete_files<D: Disk + Drop, H: NodeHash>(
    parts: &Parts<D, H>,
    notes: &mut Vec<Note>,
)
    requires sound { AreInShape parts.now }
    requires room { vec_len notes.old + vec_len notes.old ≤ vec_capacity notes.old }
    ensures noted { notes.new.items ≡ notes.old.items
        ++ complete_by (state_of parts.now) notes.old.items }
{
    let mut last = None;
    for index in 0..notes.len() {
        let Some(file) = unless_last(marked_file(&notes[index]), last) else {
            continue;
        };
        last = Some(file);
        note_if_complete(parts, file, notes);
    }
}

/// Notes the file, where it is complete.
fn note_if_complete<D: Disk + Drop, H: NodeHash>(
    parts: &Parts<D, H>,
    file: u32,
    notes: &mut Vec<Note>,
)
    requires sound { AreInShape parts.now }
    requires room { vec_len notes.old < vec_capacity notes.old }
    ensures noted { notes.new.items ≡ notes.old.items ++ notes_if_complete
        (state_of parts.now) file }
    ensures few { vec_len notes.new ≤ vec_len notes.old + 1 }
    ensures capacity { vec_capacity notes.old ≤ vec_capacity notes.new }
{
    if is_file_complete(parts, file) {
        notes.push(Note::Complete(file)).unwrap();
    }
}

/// Whether all blocks of the file are marked.
fn is_file_complete<D: Disk + Drop, H: NodeHash>(parts: &Parts<D, H>, file: u32) -> bool
    requires { AreInShape parts.now }
    ensures { result ≡ is_complete (state_of parts.now) file }
{
    match bt_engine_state::report(parts, file) {
        Some(report) => report.complete,
        None => true,
    }
}

/// The piece of the block that a note says is marked.
fn marked_piece(torrent: &Torrent, note: &Note) -> Option<u32>
    requires { (b : Block) → note.now ≡ Note.Marked b → HasBlock torrent.now b.file b.block }
    ensures { result ≡ marked_piece torrent.now note.now }
{
    match note {
        Note::Marked(block) => match torrent.range_of(block.file, block.block) {
            Some(range) => Some(range.piece),
            None => unreachable!(),
        },
        _ => None,
    }
}

/// The file of the block that a note says is marked.
fn marked_file(note: &Note) -> Option<u32>
    ensures { result ≡ marked_file note.now }
{
    match note {
        Note::Marked(block) => Some(block.file),
        _ => None,
    }
}

/// The number, unless it is the last one.
fn unless_last(number: Option<u32>, last: Option<u32>) -> Option<u32>
    ensures { result ≡ unless_last number last }
{
    if number == last { None } else { number }
}
