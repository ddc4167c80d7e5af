//! The bytes of a device in memory, with a record of all that changed them.
ghost use Rattle.std.specs.Prelude.{◌≡◌, ◌+◌, ◌<◌, ◌≤◌, ◌++◌, ◌∷◌, ℕ, [], List, length, ◌⊎◌, slice_index, take, drop, OnOk, OnErr, IfOk, vec_len, vec_capacity};
ghost use Rattle.bt_disk.specs.State.{written, resized};
ghost use Rattle.bt_disk.specs.Calls.{bytes_written, length_set, sync_made};
ghost use Rattle.bt_disk.specs.RecordSteps.{first_of, state_of};
ghost use Rattle.bt_disk.specs.MemoryDisk.{IsFilled, IsLeftBy};

use crate::loss::Loss;
use std::alloc::{AllocError, Global};
use std::marker::Model;

/// A call that changed the bytes.
#[derive(Drop)]
pub(crate) enum Change {
    Write(u64, Vec<u8>),
    SetLen(u64),
    Sync,
}

/// The bytes of a device in memory, and all that changed them.
#[derive(Drop)]
pub(crate) struct Medium {
    alloc: Global,
    /// The bytes before the first change, kept from then on.
    first: Option<Vec<u8>>,
    bytes: Vec<u8>,
    changes: Vec<Change>,
    /// What was written since the last sync: ranges by their first byte and their length.
    ranges: Vec<(u64, u64)>,
    /// The least length since the last sync.
    least: u64,
}

impl Model for Medium {
    ghost use Rattle.std.specs.Prelude.{map};
    ghost use Rattle.bt_disk.specs.MemoryDisk.{Record};

    ghost Value = { Record };

    ghost use Rattle.bt_disk.specs.RecordSteps.{call_of, first_of, LeadsTo};

    ghost view = { λ m. record {
      first = first_of m.first m.bytes.items;
      calls = map call_of m.changes.items;
    } };

    ghost invariant = { λ m.
        LeadsTo (record {
          first = first_of m.first m.bytes.items;
          calls = map call_of
              m.changes.items;
        })
        m.bytes.items m.ranges.items m.least };
}

impl Medium {
    ghost use Rattle.bt_disk.specs.MemoryDisk.{new_record, history_of};

    pub(crate) fn new(alloc: Global, bytes: Vec<u8>) -> Self
        ensures { result ≡ new_record bytes.items }
    {
        let least = bytes.len() as u64;
        Medium {
            alloc,
            first: None,
            bytes,
            changes: Vec::new(alloc),
            ranges: Vec::new(alloc),
            least,
        }
    }

    pub(crate) fn bytes(&self) -> &[u8]
        ensures { result.now ≡ (history_of self.now).now.bytes }
    {
        self.bytes.as_slice()
    }

    /// Puts one or more bytes at a place.
    pub(crate) fn write(&mut self, at: u64, more: &[u8]) -> Result<(), AllocError>
        requires { 0 < length more.now }
        ensures ok { OnOk result
            (self.new ≡ record self.old {
              calls = self.old.calls
                  ++ bytes_written at more.now ∷ [];
            }) }
        ensures err { OnErr result (self.new ≡ self.old) }
    {
        keep_first(self.alloc, &mut self.first, &self.bytes)?;
        let copy = more.to_vec(self.alloc)?;
        self.changes.reserve(1)?;
        self.ranges.reserve(1)?;
        put(&mut self.bytes, at, more)?;
        push_reserved(&mut self.changes, Change::Write(at, copy));
        push_reserved(&mut self.ranges, (at, more.len() as u64));
        Ok(())
    }

    pub(crate) fn set_len(&mut self, len: u64) -> Result<(), AllocError>
        ensures ok { OnOk result
            (self.new ≡ record self.old { calls = self.old.calls ++ length_set len ∷ [] }) }
        ensures err { OnErr result (self.new ≡ self.old) }
    {
        keep_first(self.alloc, &mut self.first, &self.bytes)?;
        self.changes.reserve(1)?;
        resize(&mut self.bytes, len as usize)?;
        push_reserved(&mut self.changes, Change::SetLen(len));
        self.least = self.least.min(len);
        Ok(())
    }

    pub(crate) fn sync(&mut self) -> Result<(), AllocError>
        ensures ok { OnOk result (self.new ≡ record self.old {
          calls = self.old.calls
              ++ sync_made ∷ [];
        }) }
        ensures err { OnErr result (self.new ≡ self.old) }
    {
        self.changes.reserve(1)?;
        push_reserved(&mut self.changes, Change::Sync);
        self.ranges.clear();
        self.least = self.bytes.len() as u64;
        Ok(())
    }

    /// The bytes that a crash leaves.
    pub(crate) fn image(&self, loss: Loss) -> Result<Vec<u8>, AllocError>
        ensures { IfOk result (λ image. IsLeftBy loss (history_of self.now).now image.items) }
    {
        let mut bytes = self.bytes.to_vec(self.alloc)?;
        lose(&mut bytes, &self.ranges, self.least, loss);
        Ok(bytes)
    }

    /// What a crash leaves, with no record of what was before.
    pub(crate) fn after_crash(self, loss: Loss) -> Self
        ensures new { result ≡ new_record result.first }
        ensures left { IsLeftBy loss (history_of self).now result.first }
    {
        let Medium {
            alloc,
            mut bytes,
            ranges,
            least,
            ..
        } = self;
        lose(&mut bytes, &ranges, least, loss);
        Medium::new(alloc, bytes)
    }
}

/// Keeps the bytes, unless those before the first change are kept already.
fn keep_first(alloc: Global, first: &mut Option<Vec<u8>>, bytes: &Vec<u8>) -> Result<(), AllocError>
    ensures same { first_of first.new bytes.now.items ≡ first_of first.old bytes.now.items }
    ensures ok { OnOk result ((others : List ℕ)
        → first_of first.new others ≡ first_of first.old bytes.now.items) }
{
    if first.is_none() {
        *first = Some(bytes.to_vec(alloc)?);
    }
    Ok(())
}

/// Puts one or more bytes at a place, and zeros into a gap before them.
fn put(bytes: &mut Vec<u8>, at: u64, more: &[u8]) -> Result<(), AllocError>
    requires { 0 < length more.now }
    ensures ok { OnOk result (bytes.new.items ≡ written bytes.old.items at more.now) }
    ensures err { OnErr result (bytes.new.items ≡ bytes.old.items) }
{
    let start = at as usize;
    let Some(end) = start.checked_add(more.len()) else {
        return Err(AllocError);
    };
    if end > bytes.len() {
        resize(bytes, end)?;
    }
    overwrite(bytes, start, more);
    Ok(())
}

/// Cuts bytes to a length, or fills them up to it with zeros.
fn resize(bytes: &mut Vec<u8>, len: usize) -> Result<(), AllocError>
    ensures ok { OnOk result (bytes.new.items ≡ resized bytes.old.items len) }
    ensures err { OnErr result (bytes.new.items ≡ bytes.old.items) }
{
    bytes.resize(len, 0)?;
    Ok(())
}

/// Puts bytes over others.
fn overwrite(bytes: &mut [u8], start: usize, more: &[u8])
    requires { start + length more.now ≤ length bytes.old }
    ensures { bytes.new ≡ take start bytes.old ++ more.now ++ drop
        (start + length more.now) bytes.old }
{
    bytes[start..start + more.len()].copy_from_slice(more);
}

/// Leaves what a loss leaves.
fn lose(bytes: &mut [u8], ranges: &[(u64, u64)], least: u64, loss: Loss)
    ensures { (greatest : ℕ) → IsLeftBy loss (state_of bytes.old ranges.now least greatest)
        bytes.new }
{
    match loss {
        Loss::Kept => {}
        Loss::Filled(byte) => fill_lost(bytes, ranges, least, byte),
    }
}

/// Fills with a byte what a crash may lose: the ranges, and all past the least length.
fn fill_lost(bytes: &mut [u8], ranges: &[(u64, u64)], least: u64, byte: u8)
    ensures { (greatest : ℕ) → IsFilled (state_of bytes.old ranges.now least greatest) byte
        bytes.new }
{
    fill(bytes, least, u64::MAX, byte);
    for range in ranges {
        let (start, count) = *range;
        fill(bytes, start, start.saturating_add(count), byte);
    }
}

/// Fills with a byte what lies from `start` up to `end`, as far as the bytes go.
fn fill(bytes: &mut [u8], start: u64, end: u64, byte: u8)
    ensures size { length bytes.new ≡ length bytes.old }
    ensures inside { (i : ℕ) → i < length bytes.new → start ≤ i → i < end
        → slice_index bytes.new i ≡ byte }
    ensures outside { (i : ℕ) → (i < start) ⊎ (end ≤ i) → slice_index bytes.new i
        ≡ slice_index bytes.old i }
{
    let end = end.min(bytes.len() as u64);
    let start = start.min(end);
    bytes[start as usize..end as usize].fill(byte);
}

/// Adds an element, for which there is room.
fn push_reserved<T: Drop>(items: &mut Vec<T>, item: T)
    requires { vec_len items.old < vec_capacity items.old }
    ensures { items.new.items ≡ items.old.items ++ item ∷ [] }
{
    if items.push(item).is_err() {
        unreachable!();
    }
}
