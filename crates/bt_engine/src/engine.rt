//! The engine of a torrent: its start, one call for each event of the machine of `bt_machine`, and calls that
//! tell how it stands.
ghost use Rattle.std.specs.Prelude.{◌≡◌, ◌≢◌, ◌≤◌, false, length, take, IfOk, IfErr, OnOk, OnErr, option_map, slice_get};
ghost use Rattle.std.specs.Option.{option_and_then, option_copied};
ghost use Rattle.sha2.specs.Sha256.{sha256};
ghost use Rattle.bt_tree.specs.Limits.{digest_length};
ghost use Rattle.bt_meta.specs.Torrent.{IsLawful};
ghost use Rattle.bt_machine.specs.Backing.{HasBacking, GoesByLog};
ghost use Rattle.bt_machine.specs.Frames.{AreSparseTrees};
ghost use Rattle.bt_machine.specs.Law.{AreRooted};
ghost use Rattle.bt_machine.specs.Orderly.{IsOrderly};
ghost use Rattle.bt_machine.specs.Report.{report as file_report, all_complete, peer_count};
ghost use Rattle.bt_machine.specs.Shape.{IsShaped};
ghost use Rattle.bt_machine.specs.Sound.{IsSound};
ghost use Rattle.bt_machine.specs.Opening.{AnswersStart};
ghost use Rattle.bt_machine.specs.View.{StepsTo};
ghost use Rattle.bt_engine_after.specs.Unknown.{HasUnknownLeaf};
ghost use Rattle.bt_engine.specs.Kept.{view_of};
ghost use Rattle.bt_engine.specs.Standing.{Stands, KeepsBlocks, KeepsHints};
ghost use Rattle.bt_engine.specs.Reopened.{IsReopened, IsBackedByLog};

use crate::greeting::connect;
use crate::next::next;
use crate::standing::events_stand;
use bt_book::PeerKey;
use bt_disk::Disk;
use bt_engine_state::Parts;
use bt_machine::{
    AdoptError, Answer, ConnectError, EngineError, Event, FileReport, FlushError, Output,
    RestartError, StartRefused, flush_keeps_blocks, flushed_blocks_are_marked_again,
    logs_back_engines, logs_stand, steps_keep_laws,
};
use bt_meta::Torrent;
use bt_resume::ResumeLog;
use bt_store::Adopted;
use bt_tree::{Hash32, NodeHash};
use std::alloc::{AllocError, Global};
use std::marker::Model;

/// An engine over the devices of a torrent's files, with a log of the torrent or without.
#[derive(Drop)]
pub struct Engine<D: Disk + Drop, H: NodeHash> {
    alloc: Global,
    parts: Parts<D, H>,
    /// The digest of its trees, by which laws are called.
    hash: H,
}

impl<D: Disk + Drop, H: NodeHash> Model for Engine<D, H> {
    ghost use Rattle.std.specs.Coded.{codes};
    ghost use Rattle.bt_sparse.specs.SparseTree.{facts_code};
    ghost use Rattle.bt_machine.specs.State.{EngineView};

    ghost Value = { EngineView D };

    ghost coded = { Prim.hlevel (codes, facts_code, D.code) };

    ghost use Rattle.bt_engine.specs.Kept.{view_of, IsKept};

    ghost view = { λ a. view_of a.parts };

    ghost invariant = { λ a. IsKept D.conduct H.digest a.parts };
}

impl<D: Disk + Drop, H: NodeHash> Engine<D, H> {
    /// Starts an engine of a torrent over the devices of its files that have a byte, in the torrent's order,
    /// with a log of the torrent or without. Each tree is what the torrent says of it, and takes the proofs
    /// that were last read from the log. Each block that the log records and whose leaf is known is read, once,
    /// and is marked where its bytes are right; all others are missing, and without a log all are. No peer is
    /// connected. No call of the log is made.
    ///
    /// Errors, in this order: there is not one device for each file that has a byte; the log is another
    /// torrent's; out of memory. The devices and the log are given back, and no call of them was made.
    pub fn start(
        alloc: Global,
        torrent: Torrent,
        hash: H,
        disks: Vec<D>,
        log: Option<ResumeLog<D>>,
    ) -> Result<Self, StartRefused<D, ResumeLog<D>>>
        requires { H.digest ≡ sha256 }
        ensures answer { AnswersStart D.conduct H.digest torrent disks.items log result }
        ensures again { IfOk result (IsReopened D.conduct H.digest
            torrent disks.items log) }
        ensures backed { IfOk result (IsBackedByLog D.conduct H.digest torrent log) }
    {
        flushed_blocks_are_marked_again::<D, H>(hash);
        logs_back_engines::<D, H>(hash);
        infohash_is_whole(&torrent);
        match bt_engine_start::start(alloc, torrent, hash, disks, log) {
            Ok(parts) => Ok(Engine { alloc, parts, hash }),
            Err(refused) => Err(refused),
        }
    }

    /// Connects a peer: gives the key by which it is called from then on, and what it is to be sent, our
    /// handshake and our bitfield.
    ///
    /// Errors, the first that is met, which change nothing: `Full` where 64 peers are connected; `SerialsSpent`
    /// where no key is left; out of memory.
    pub fn connect(&mut self) -> Result<(PeerKey, Output), ConnectError>
        ensures step { StepsTo D.conduct H.digest
            self.old Event.Connect (Answer.Connected result) self.new }
        ensures stands { Stands D.conduct self.old self.new }
        ensures devices { self.new.disks ≡ self.old.disks }
    {
        steps_keep_laws::<D, H>(self.hash);
        events_stand::<D, H>(self.hash);
        connect(self.alloc, &mut self.parts)
    }

    /// Puts bytes after those of a peer that no event was taken from, all or none.
    ///
    /// Errors, which change nothing: no peer has the key; out of memory.
    pub fn feed(&mut self, peer: PeerKey, bytes: &[u8]) -> Result<(), EngineError>
        ensures step { StepsTo D.conduct H.digest
            self.old (Event.Feed peer bytes.now) (Answer.Fed result) self.new }
        ensures stands { Stands D.conduct self.old self.new }
        ensures devices { self.new.disks ≡ self.old.disks }
    {
        steps_keep_laws::<D, H>(self.hash);
        events_stand::<D, H>(self.hash);
        bt_engine_state::feed(&mut self.parts, peer, bytes)
    }

    /// The same event as `feed` with the first `count` bytes of a buffer. The engine may take the buffer in
    /// exchange for another, and copies no byte then: so the buffer may hold other bytes afterwards, but it does
    /// not get shorter.
    ///
    /// Errors, which change neither the engine nor the buffer: no peer has the key; out of memory.
    pub fn feed_buffer(
        &mut self,
        peer: PeerKey,
        buffer: &mut Vec<u8>,
        count: usize,
    ) -> Result<(), EngineError>
        requires within { count ≤ length buffer.old.items }
        ensures step { StepsTo D.conduct H.digest
            self.old (Event.Feed peer (take count buffer.old.items)) (Answer.Fed result) self.new }
        ensures stands { Stands D.conduct self.old self.new }
        ensures devices { self.new.disks ≡ self.old.disks }
        ensures unchanged { OnErr result (buffer.new.items ≡ buffer.old.items) }
        ensures long { length buffer.old.items ≤ length buffer.new.items }
    {
        steps_keep_laws::<D, H>(self.hash);
        events_stand::<D, H>(self.hash);
        bt_engine_state::feed_buffer(&mut self.parts, peer, buffer, count)
    }

    /// Takes the next wire event of a peer, and does what follows from it: what is to be sent, and to whom;
    /// why the peer is closed, if it is; and what was done. None where no event has come whole.
    ///
    /// Errors: no peer has the key; out of memory, by which the event is lost and the peer with it, and
    /// nothing else changes. No device is called then.
    pub fn next(&mut self, peer: PeerKey) -> Result<Option<Output>, EngineError>
        ensures step { StepsTo D.conduct H.digest
            self.old (Event.Next peer) (Answer.Stepped result) self.new }
        ensures stands { Stands D.conduct self.old self.new }
        ensures devices { IfErr result (λ _. self.new.disks ≡ self.old.disks) }
    {
        steps_keep_laws::<D, H>(self.hash);
        events_stand::<D, H>(self.hash);
        next(self.alloc, &mut self.parts, peer)
    }

    /// Lets a peer go. What it was asked for may be asked of others. Errors: no peer has the key.
    pub fn lost(&mut self, peer: PeerKey) -> Result<(), EngineError>
        ensures step { StepsTo D.conduct H.digest
            self.old (Event.Lost peer) (Answer.Lost result) self.new }
        ensures stands { Stands D.conduct self.old self.new }
        ensures devices { self.new.disks ≡ self.old.disks }
    {
        steps_keep_laws::<D, H>(self.hash);
        events_stand::<D, H>(self.hash);
        bt_engine_state::lost(&mut self.parts, peer)
    }

    /// Chooses the peers to serve anew, and gives what is to be sent. Errors: out of memory; nothing changed
    /// then.
    pub fn rechoke(&mut self) -> Result<Output, AllocError>
        ensures step { StepsTo D.conduct H.digest
            self.old Event.Rechoke (Answer.Rechoked result) self.new }
        ensures stands { Stands D.conduct self.old self.new }
        ensures devices { self.new.disks ≡ self.old.disks }
    {
        steps_keep_laws::<D, H>(self.hash);
        events_stand::<D, H>(self.hash);
        bt_engine_after::rechoke(self.alloc, &mut self.parts)
    }

    /// Takes in what the device of a file has already, and says how much of it. `next` is the number of its
    /// blocks then.
    ///
    /// Errors: no such file; a peer is connected, and in both cases nothing has changed and no device was
    /// called; out of memory, after which what was taken in stays so: without a log only where a leaf of the
    /// file was not known.
    pub fn adopt(&mut self, file: u32) -> Result<Adopted, AdoptError>
        ensures step { StepsTo D.conduct H.digest
            self.old (Event.Adopt file) (Answer.Adopted result) self.new }
        ensures stands { Stands D.conduct self.old self.new }
        ensures refused { IfErr result (λ error.
            error ≢ AdoptError.OutOfMemory → self.new ≡ self.old) }
        ensures unknown { IfErr result (λ error. error ≡ AdoptError.OutOfMemory
            → self.old.state.logged ≡ false → HasUnknownLeaf H.digest self.new.state file) }
    {
        steps_keep_laws::<D, H>(self.hash);
        events_stand::<D, H>(self.hash);
        bt_engine_after::adopt(self.alloc, &mut self.parts, file)
    }

    /// Syncs all devices, in the order of files; with a log then appends what waits for it, in the order of
    /// events, and syncs it; up to the first fault, after which all that waited waits still.
    ///
    /// Errors: a device of a file failed, or the log's; the log would have more than 2^40 bytes.
    pub fn flush(&mut self) -> Result<(), FlushError>
        ensures step { StepsTo D.conduct H.digest
            self.old Event.Flush (Answer.Flushed result) self.new }
        ensures stands { Stands D.conduct self.old self.new }
        ensures blocks { OnOk result (KeepsBlocks D.conduct self.new) }
        ensures hints { OnOk result (KeepsHints D.conduct H.digest self.old self.new) }
    {
        steps_keep_laws::<D, H>(self.hash);
        events_stand::<D, H>(self.hash);
        flush_keeps_blocks::<D, H>();
        logs_stand::<D, H>();
        bt_engine_after::flush(&mut self.parts)
    }

    /// Begins all anew, as a start does, with what a log has now, which is read again first. No peer is
    /// connected, and nothing waits for the log. Keys and turns go on. A log then has enough of each marked block,
    /// whatever it held before, as by hints that were appended to it between its opening and the start.
    ///
    /// Errors: `Log` where the log could not be read, and then nothing has changed; out of memory, and then a
    /// log was read again, and nothing else has changed. No device of a file is called then.
    pub fn restart(&mut self) -> Result<(), RestartError>
        ensures step { StepsTo D.conduct H.digest
            self.old Event.Restart (Answer.Restarted result) self.new }
        ensures devices { IfErr result (λ _. self.new.disks ≡ self.old.disks) }
        ensures backed { OnOk result (HasBacking D.conduct H.digest self.new) }
    {
        steps_keep_laws::<D, H>(self.hash);
        logs_back_engines::<D, H>(self.hash);
        goes_by_log(&self.parts);
        bt_engine_start::restart(self.alloc, self.hash, &mut self.parts)
    }

    /// The digest of its trees, SHA-256. A law of digests is called with it.
    pub fn hash(&self) -> H
        ensures digest { H.digest ≡ sha256 }
    {
        self.hash
    }

    /// The torrent that it was started with.
    pub fn torrent(&self) -> &Torrent
        ensures { result.now ≡ self.now.state.torrent }
    {
        &self.parts.torrent
    }

    /// How far a file is, in constant time; None where there is no such file.
    pub fn report(&self, file: u32) -> Option<FileReport>
        ensures { result ≡ file_report self.now.state file }
    {
        bt_engine_state::report(&self.parts, file)
    }

    /// Whether all files are complete. It looks at one number for each file.
    pub fn is_complete(&self) -> bool
        ensures { result ≡ all_complete self.now.state }
    {
        bt_engine_state::is_complete(&self.parts)
    }

    /// How many peers are connected.
    pub fn peers(&self) -> usize
        ensures { result ≡ peer_count self.now.state }
    {
        bt_engine_state::peer_count(&self.parts)
    }

    /// The device of a file; None where the file is empty, and where there is no such file.
    pub fn disk(&self, file: u32) -> Option<&D>
        ensures { option_copied result ≡ option_and_then (λ disk. disk)
            (slice_get self.now.disks file) }
    {
        bt_engine_state::disk(&self.parts, file)
    }

    /// The device of the log; None without a log.
    pub fn log_disk(&self) -> Option<&D>
        ensures { option_copied result ≡ option_map (λ log. log.disk) self.now.log }
    {
        match &self.parts.log {
            Some(open) => Some(open.log.disk()),
            None => None,
        }
    }

    /// The laws of an engine: it has the torrent's files and the trees of their roots, its peers are in
    /// order, its trees are rooted and their digests have 32 bytes, and on honest devices the marked blocks
    /// are right. It does nothing when it runs.
    pub fn keeps_laws(&self)
        ensures lawful { IsLawful self.now.state.torrent.piece_length self.now.state.torrent.files }
        ensures shaped { IsShaped self.now.state.torrent self.now.state }
        ensures orderly { IsOrderly self.now.state }
        ensures rooted { AreRooted H.digest self.now.state }
        ensures sparse { AreSparseTrees H.digest self.now.state }
        ensures sound { IsSound D.conduct H.digest self.now.state self.now.disks }
    {
        // A proof knows what holds of an engine only from a step that looks at its parts.
        let _ = &self.parts;
    }
}

/// An infohash has 32 bytes. It does nothing when it runs.
fn infohash_is_whole(torrent: &Torrent)
    ensures { length torrent.now.infohash ≡ digest_length }
{
    is_whole(torrent.infohash());
}

/// The parts have a log exactly where their state says so, and its infohash has 32 bytes. It does nothing when it
/// runs.
fn goes_by_log<D: Disk + Drop, H: NodeHash>(parts: &Parts<D, H>)
    ensures { GoesByLog (view_of parts.now) }
{
    if let Some(open) = &parts.log {
        is_whole(open.log.infohash());
    }
}

/// A digest has 32 bytes, which its type says. It does nothing when it runs.
fn is_whole(_digest: Hash32)
    ensures { length _digest ≡ digest_length }
{}
