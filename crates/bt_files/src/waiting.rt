//! Taking in files of which a piece may have come whole, though some of its blocks came without their hashes.
ghost use Rattle.std.specs.Prelude.{[], ◌≡◌, ◌*◌, ◌<◌, ◌↔◌, IsTrue, IfErr, OnOk};
ghost use Rattle.bt_tree.specs.Limits.{full_block_length};
ghost use Rattle.bt_engine.specs.Leads.{LeadsTo};
ghost use Rattle.bt_files.specs.Waiting.{MayHaveWaitingPiece, StopsAtWaiting, TakesInAllWaiting};

use crate::adoption::adopt_file;
use bt_check::Fault;
use bt_disk::Disk;
use bt_engine::Engine;
use bt_tree::{BLOCK_LEN, NodeHash};

/// Takes in each file in which a block waits for its hash and of which a piece may have come whole: the digest that
/// the torrent has of a piece decides then whether the piece's blocks are right, and all other blocks stay as they
/// are. How many blocks of a file are there decides, not which: a file of several pieces is read where any of its
/// blocks waits, a file of one piece only where all of its blocks are there. A file may be settled by one before it
/// that has the same root. Where no block waits, it costs a look at each file. Errors: a read failed, or out of
/// memory; the files before that one stay taken in.
pub fn adopt_waiting<D: Disk + Drop, H: NodeHash>(engine: &mut Engine<D, H>) -> Result<(), Fault>
    requires { engine.old.state.peers ≡ [] }
    ensures taken_in { OnOk result
        (TakesInAllWaiting D.conduct H.digest engine.old engine.new) }
    ensures fault { IfErr result
        (λ fault. StopsAtWaiting D.conduct H.digest engine.old fault engine.new) }
    ensures run { LeadsTo D.conduct H.digest engine.old engine.new }
    ensures torrent { engine.new.state.torrent ≡ engine.old.state.torrent }
    ensures no_peer { engine.new.state.peers ≡ [] }
{
    engine.keeps_laws();
    let count = engine.torrent().files().len() as u32;
    for file in 0..count {
        if may_have_waiting_piece(engine, file) {
            adopt_file(engine, file)?;
        }
    }
    Ok(())
}

/// Whether a block of a file waits, and the file has several pieces or lacks no block. False where there is no such
/// file.
fn may_have_waiting_piece<D: Disk + Drop, H: NodeHash>(engine: &Engine<D, H>, file: u32) -> bool
    ensures { IsTrue result ↔ MayHaveWaitingPiece engine.now.state file }
{
    let Some(report) = engine.report(file) else {
        return false;
    };
    let there = u64::from(report.marked) + u64::from(report.waiting);
    let is_whole = there == u64::from(report.blocks);
    let has_several = has_several_pieces(engine, report.blocks);
    report.waiting > 0 && (has_several || is_whole)
}

/// Whether a file of `blocks` blocks has more than one piece.
fn has_several_pieces<D: Disk + Drop, H: NodeHash>(engine: &Engine<D, H>, blocks: u32) -> bool
    ensures { IsTrue result
        ↔ (engine.now.state.torrent.piece_length < blocks * full_block_length) }
{
    u64::from(engine.torrent().piece_length()) < u64::from(blocks) * BLOCK_LEN as u64
}
