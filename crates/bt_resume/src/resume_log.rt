//! The log of hints on a device, in this project's own format: opened, read again, appended to, flushed.
ghost use Rattle.std.specs.Prelude.{◌≡◌, ◌+◌, ◌*◌, ◌≤◌, IfOk, IfErr, Err, length};
ghost use Rattle.bt_resume.specs.Limits.{max_appended_length};
ghost use Rattle.bt_resume.specs.Hint.{CanBeRead};
ghost use Rattle.bt_resume.specs.LogText.{appended_bytes};
ghost use Rattle.bt_resume.specs.declared.hint.Hint.{Hint};
ghost use Rattle.bt_resume.specs.ResumeLog.{IsAttached, Opens, IsReloaded, IsAppended, IsFlushed};

use crate::contents::{Contents, End, MAX_LOG_LEN, open_log, read_log};
use crate::error::{AppendError, LogError, Refused};
use crate::hint::{Format, Hint};
use crate::hints::Hints;
use crate::writer::{
    MAX_PROOF_ROOM, MAX_RUN_ROOM, ROOM_OF_5, ROOM_OF_9, ROOM_OF_17, ROOM_OF_34, ROOM_OF_68,
    ROOM_OF_135, ROOM_OF_269, write_proof, write_renewal, write_run,
};
use bt_disk::{DeviceFault, Disk};
use bt_hashreq::HashKey;
use bt_sparse::Digests;
use bt_tree::Hash32;
use std::alloc::Global;
use std::marker::Model;

/// A log of hints on a device.
///
/// It begins with 40 bytes, `btseed-2` and the torrent's infohash; after them lies one hint after the
/// other. The first bytes that are no hint, and all after them, are ignored and later written over. No
/// checksum is needed, since a hint is never trusted. The format is this project's own.
///
/// A log of format 1, which begins with `btseed-1`, is read too. What is appended to it is of format 2, after
/// the byte `2`; nothing in front of it is written again.
///
/// Only `attach` and `reload` take memory: as much as the hints that are read take in the log.
#[derive(Drop)]
pub struct ResumeLog<D: Disk + Drop> {
    alloc: Global,
    disk: D,
    infohash: Hash32,
    hints: Hints,
    /// Where the next hint is written.
    end: End,
    /// Where the log ended at the last flush or reading that succeeded.
    kept: End,
}

impl<D: Disk + Drop> Model for ResumeLog<D> {
    ghost use Rattle.std.specs.Prelude.{◌≤◌};
    ghost use Rattle.bt_resume.specs.Limits.{max_log_length};
    ghost use Rattle.bt_resume.specs.LogText.{hints_in};
    ghost use Rattle.bt_resume.specs.ResumeLog.{LogView};

    ghost Value = { LogView D };

    ghost view = { λ a. record {
      disk = a.disk;
      infohash = a.infohash;
      hints = hints_in a.hints;
      end = a.end.at;
      format = a.end.format;
      kept_end = a.kept.at;
      kept_format = a.kept.format;
    } };

    ghost invariant = { λ a. (a.end.at ≤ max_log_length) × (a.kept.at ≤ a.end.at) };
}

impl<D: Disk + Drop> ResumeLog<D> {
    ghost use Rattle.bt_resume.specs.LogText.{hints_in, format_number};

    /// Opens the log of a torrent, by its infohash. A device without bytes gets a header of format 2, which is
    /// written and synced; to any other nothing is written. The device is given back with a refusal; after
    /// `Device` the header may stand there, whole or in part.
    ///
    /// Errors, in this order: `OtherTorrent` where the device is not empty and begins with neither header;
    /// `TooLong` where it has more than 2^40 bytes, of which only the header is read then; `OutOfMemory`.
    /// `Device`, where one of its calls failed, may stand in place of each.
    pub fn attach(
        alloc: Global,
        mut disk: D,
        infohash: Hash32,
    ) -> Result<ResumeLog<D>, Refused<D, LogError>>
        ensures log { IfOk result (IsAttached D.conduct infohash disk) }
        ensures refused { IfErr result (λ refused. Opens D.conduct infohash disk
            (Err refused.cause) refused.disk) }
    {
        match open_log(alloc, &mut disk, &infohash) {
            Ok(contents) => {
                let Contents { hints, end } = contents;
                Ok(ResumeLog {
                    alloc,
                    disk,
                    infohash,
                    hints,
                    end,
                    kept: end,
                })
            }
            Err(cause) => Err(Refused { disk, cause }),
        }
    }

    /// Whose torrent's log it is.
    pub fn infohash(&self) -> Hash32
        ensures { result ≡ self.now.infohash }
    {
        self.infohash
    }

    /// The hints, in order, as they were last read from the device: without those that were appended since.
    pub fn hints(&self) -> &Hints
        ensures { hints_in result.now ≡ self.now.hints }
    {
        &self.hints
    }

    /// In which format the log goes on: 1 in a log of format 1 as long as the byte `2` does not stand after its
    /// last hint, or is forgotten; else 2.
    pub fn format(&self) -> u8
        ensures { result ≡ format_number self.now.format }
    {
        match self.end.format {
            Format::One => 1,
            Format::Two => 2,
        }
    }

    /// The device.
    pub fn disk(&self) -> &D
        ensures { result.now ≡ self.now.disk }
    {
        &self.disk
    }

    /// Gives the device back, as it stands.
    pub fn into_disk(self) -> D
        ensures { result ≡ self.disk }
    {
        let ResumeLog { disk, .. } = self;
        disk
    }

    /// Reads the device again. Nothing is written to it.
    ///
    /// Errors: as `attach`, but that a device without bytes is `OtherTorrent`. They leave the hints as they
    /// were, and what was appended is not forgotten.
    pub fn reload(&mut self) -> Result<(), LogError>
        ensures { IsReloaded D.conduct self.old result self.new }
    {
        let contents = read_log(self.alloc, &mut self.disk, &self.infohash)?;
        let Contents { hints, end } = contents;
        self.hints = hints;
        self.end = end;
        self.kept = end;
        Ok(())
    }

    /// Writes a hint that can be read back after the last one, by one call of the device; the first one in a
    /// log of format 1 after the byte `2`, by the same call. Takes no memory.
    ///
    /// Errors: `Full` only where the log would get longer than 2^40 bytes, and then nothing is written;
    /// `Device`. After both, what was appended since the last good flush or reading is forgotten: it is to
    /// be appended again.
    pub fn append(&mut self, hint: &Hint) -> Result<(), AppendError>
        requires { CanBeRead hint.now }
        ensures { IsAppended D.conduct hint.now self.old result self.new }
    {
        match hint {
            Hint::Proof(key, digests) => self.append_proof(key, digests),
            Hint::Marks { file, first, count } => {
                let mut bytes = [0; MAX_RUN_ROOM];
                let at = write_renewal(self.end.format, &mut bytes);
                let len = write_run(*file, *first, *count, at, &mut bytes);
                self.append_bytes(&bytes[..len])
            }
        }
    }

    /// Appends a proof, by the least of eight buffers that has room for it.
    fn append_proof(&mut self, key: &HashKey, digests: &Digests) -> Result<(), AppendError>
        requires { CanBeRead (Hint.Proof key.now digests.now) }
        ensures { IsAppended D.conduct (Hint.Proof key.now digests.now) self.old result self.new }
    {
        match digests.as_slice().len() {
            ..=5 => self.append_proof_in::<ROOM_OF_5>(key, digests),
            6..=9 => self.append_proof_in::<ROOM_OF_9>(key, digests),
            10..=17 => self.append_proof_in::<ROOM_OF_17>(key, digests),
            18..=34 => self.append_proof_in::<ROOM_OF_34>(key, digests),
            35..=68 => self.append_proof_in::<ROOM_OF_68>(key, digests),
            69..=135 => self.append_proof_in::<ROOM_OF_135>(key, digests),
            136..=269 => self.append_proof_in::<ROOM_OF_269>(key, digests),
            _ => self.append_proof_in::<MAX_PROOF_ROOM>(key, digests),
        }
    }

    /// Appends a proof, by a buffer of `N` bytes, which is cleared first.
    fn append_proof_in<const N: usize>(
        &mut self,
        key: &HashKey,
        digests: &Digests,
    ) -> Result<(), AppendError>
        requires readable { CanBeRead (Hint.Proof key.now digests.now) }
        requires room { 50 + 32 * length digests.now ≤ N }
        requires within { N ≤ max_appended_length }
        ensures { IsAppended D.conduct (Hint.Proof key.now digests.now) self.old result self.new }
    {
        let mut bytes = [0; N];
        let at = write_renewal(self.end.format, &mut bytes);
        let len = write_proof(key, digests, at, &mut bytes);
        self.append_bytes(&bytes[..len])
    }

    /// Writes the bytes that are appended for a hint after the last one, as [`append`](Self::append) does.
    fn append_bytes(&mut self, bytes: &[u8]) -> Result<(), AppendError>
        requires { length bytes.now ≤ max_appended_length }
        ensures { (hint : Hint) → bytes.now ≡ appended_bytes self.old.format hint
            → IsAppended D.conduct hint self.old result self.new }
    {
        let at = self.end.at + bytes.len() as u64;
        if at > MAX_LOG_LEN {
            self.end = self.kept;
            return Err(AppendError::Full);
        }
        let Ok(()) = self.disk.write_at(self.end.at, bytes) else {
            self.end = self.kept;
            return Err(AppendError::Device);
        };
        let format = Format::Two;
        self.end = End { at, format };
        Ok(())
    }

    /// Syncs the device, by one call: then a crash leaves all hints that were read or appended until now.
    /// Takes no memory.
    ///
    /// After a fault, what was appended since the last good flush or reading is forgotten: it is to be
    /// appended again.
    pub fn flush(&mut self) -> Result<(), DeviceFault>
        ensures { IsFlushed D.conduct self.old result self.new }
    {
        let result = self.disk.sync();
        match result {
            Ok(()) => self.kept = self.end,
            Err(_) => self.end = self.kept,
        }
        result
    }
}
