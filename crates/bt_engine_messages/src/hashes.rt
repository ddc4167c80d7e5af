//! Hashes that come (BEP 52): the tree of their root learns them, the blocks that waited for them are read
//! back, and the request book and the counts follow.
ghost use Rattle.std.specs.Prelude.{◌≡◌, ◌+◌, ◌*◌, ◌≤◌, ℕ, IfOk, IfErr};
ghost use Rattle.bt_meta.specs.Limits.{max_file_count};
ghost use Rattle.bt_book.specs.Book.{asked_of, peers_of};
ghost use Rattle.bt_book.specs.declared.names.PeerKey.{PeerKey};
ghost use Rattle.bt_sparse.specs.Answer.{max_run_length};
ghost use Rattle.bt_wire.specs.declared.event.WireEvent.TheVariants.{Message as message_event};
ghost use Rattle.bt_wire.specs.declared.message.Message.TheVariants.{Hashes};
ghost use Rattle.bt_machine.specs.State.{EngineState};
ghost use Rattle.bt_engine_state.specs.BlockChange.{AreFollowed};
ghost use Rattle.bt_engine_state.specs.Parts.{state_of};
ghost use Rattle.bt_engine_state.specs.Handling.{AreInShape, AreInShapeAt, KeepsLog, KeepsKeys};
ghost use Rattle.bt_engine_messages.specs.Outcome.{IsHandled, note_count};
ghost use Rattle.bt_engine_messages.specs.Hashes.{IsNoteRoom};
ghost use Rattle.bt_engine_messages.specs.HashesSteps.{IsNoteOf, HasNoted, IsBehind};

use crate::hints::hint_for;
use crate::learning::{Learnt, learn_hashes, settled_count};
use crate::message::resolved_hash_state;
use crate::outcome::{Outcome, Reply};
use crate::runs::room_for;
use bt_book::Book;
use bt_disk::Disk;
use bt_engine_state::{Counts, Parts, follow_block};
use bt_hashreq::HashKey;
use bt_machine::{HashState, Note};
use bt_meta::Torrent;
use bt_sparse::MAX_RUN_LENGTH;
use bt_store::BlockState;
use bt_tree::NodeHash;
use std::alloc::{AllocError, Global};

/// Takes hashes that come from the peer at `index`: the tree of their root learns them, and then the blocks
/// of their run that waited are read back in every file of the root. Where the peer is asked for these
/// hashes, it may be asked for others. With a log, the hint that it is to keep of them is given, which can be
/// read back. Errors: out of memory, and nothing changes then.
pub fn take_hashes<D: Disk + Drop, H: NodeHash>(
    alloc: Global,
    parts: &mut Parts<D, H>,
    index: usize,
    key: &HashKey,
    digests: &[u8],
) -> Result<Outcome, AllocError>
    requires { AreInShapeAt parts.old index }
    ensures takes { IfOk result (λ outcome. IsHandled D.conduct H.digest parts.old index
        (message_event (Hashes key.now digests.now)) outcome parts.new) }
    ensures few { IfOk result (λ outcome.
        (room : ℕ) → IsNoteRoom parts.old key.now room → note_count outcome ≤ room) }
    ensures keys { KeepsKeys parts.old parts.new }
    ensures rest { KeepsLog parts.old parts.new }
    ensures kept { IfErr result (λ _. parts.new ≡ parts.old) }
{
    // A clause of this call says how many files there are at most.
    let _ = parts.torrent.files();
    let hint = hint_for(alloc, &parts.log, key, digests)?;
    let waits = parts.counts.waiting > 0;
    match learn_hashes(
        alloc,
        &mut parts.slots,
        &mut parts.trees,
        &parts.roots,
        key,
        digests,
        hint,
        waits,
    )? {
        Learnt::Refused(why) => Ok(Outcome::Closed(why)),
        Learnt::Settled(notes, kept) => {
            let peer = &mut parts.peers[index];
            peer.hash = resolved_hash_state(peer.hash, *key, HashState::Idle);
            follow_notes(&parts.torrent, &mut parts.book, &mut parts.counts, &notes);
            Ok(Outcome::Stays(Reply::Settled(notes), kept))
        }
    }
}

/// How many notes hashes of this key come to at most.
pub fn room_for_notes<D: Disk + Drop, H: NodeHash>(parts: &Parts<D, H>, key: &HashKey) -> usize
    requires { AreInShape parts.now }
    ensures room { IsNoteRoom parts.now key.now result }
    ensures small { result ≤ (max_run_length + 1) * max_file_count }
{
    // A clause of this call says how many files there are at most.
    let _ = parts.torrent.files();
    match parts.roots.tree_of(&key.root) {
        Some(index) => room_for(
            &parts.slots,
            &parts.roots,
            index as usize,
            settled_count(key).min(MAX_RUN_LENGTH),
            parts.counts.waiting > 0,
        ),
        None => 0,
    }
}

/// Brings the request book and the counts in line with the blocks that these notes name.
fn follow_notes(torrent: &Torrent, book: &mut Book, counts: &mut Counts, notes: &[Note])
    requires { (s : EngineState) × (s.torrent ≡ torrent.now)
        × IsBehind book.old.wanted counts.old notes.now s }
    ensures followed { (s : EngineState) → s.torrent ≡ torrent.now
        → IsBehind book.old.wanted counts.old notes.now s
        → AreFollowed s book.new.wanted counts.new }
    ensures asked { (key : PeerKey) → asked_of book.new key ≡ asked_of book.old key }
    ensures peers { peers_of book.new ≡ peers_of book.old }
{
    for note in notes {
        follow_note(torrent, book, counts, note);
    }
}

/// Brings the request book and the counts in line with the block that this note names.
fn follow_note(torrent: &Torrent, book: &mut Book, counts: &mut Counts, note: &Note)
    requires { HasNoted torrent.now book.old.wanted counts.old note.now }
    ensures followed { (s t : EngineState) → s.torrent ≡ torrent.now
        → AreFollowed s book.old.wanted counts.old → IsNoteOf s note.now t
        → AreFollowed t book.new.wanted counts.new }
    ensures asked { (key : PeerKey) → asked_of book.new key ≡ asked_of book.old key }
    ensures peers { peers_of book.new ≡ peers_of book.old }
{
    match note {
        Note::Marked(block) => follow_block(
            torrent,
            book,
            counts,
            *block,
            BlockState::Waiting,
            BlockState::Marked,
        ),
        Note::Freed(block) => follow_block(
            torrent,
            book,
            counts,
            *block,
            BlockState::Waiting,
            BlockState::Missing,
        ),
        _ => {}
    }
}
