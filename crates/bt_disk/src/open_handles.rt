//! The open handles that devices of a pool share.
ghost use Rattle.std.specs.Prelude.{◌≡◌, ◌≢◌, ◌<◌, IfOk, IfSome, IfNone, All, false, length};
ghost use Rattle.bt_disk.specs.OpenHandles.{no_handles, IsRoomMade, IsClosed, IsPut, IsTaken, HasNone, IsPlaceOf, is_lost, with_loss_told};

use crate::handle::Opened;
use crate::opening::FileIdentity;
use std::alloc::{AllocError, Global};
use std::collections::VecDeque;
use std::fs::OpenFile;
use std::marker::Model;

/// An open handle.
#[derive(Drop)]
pub(crate) struct OpenHandle<F> {
    /// The number of the device whose file it is of.
    pub device: u64,
    pub file: F,
    /// The identity that the system told of the file when this handle was opened.
    pub identity: Option<FileIdentity>,
    /// From a write or new length on, until a sync that succeeds.
    pub has_written: bool,
}

/// Open handles, the one used last first, where it is soon found: at most `limit`, for which there is room.
///
/// One that has written is synced before it is closed, since what the system tells of its writes may be told to
/// it alone. Where that sync fails, the device is *lost*, until it is told.
#[derive(Drop)]
pub(crate) struct OpenHandles<F> {
    entries: VecDeque<OpenHandle<F>>,
    limit: usize,
    lost: Vec<u64>,
    /// The number of a lost device could not be kept, for want of memory: then each counts as lost.
    are_all_lost: bool,
}

impl<F> Model for OpenHandles<F> {
    ghost use Rattle.std.specs.Prelude.{◌<◌, ◌≤◌, length};
    ghost use Rattle.std.specs.VecDeque.{deque_capacity};
    ghost use Rattle.bt_disk.specs.OpenHandles.{HandlesView};

    ghost Value = { HandlesView F };

    ghost view = { λ h. record {
      limit = h.limit;
      entries = h.entries.items;
      lost = h.lost.items;
      are_all_lost = h.are_all_lost;
    } };

    ghost invariant = { λ h.
        (0 < h.limit) × (length h.entries.items ≤ h.limit) × (h.limit ≤ deque_capacity h.entries) };
}

impl<F> OpenHandle<F> {
    /// One of a device, that has not written.
    pub(crate) fn new(device: u64, opened: Opened<F>) -> Self
        ensures { result ≡ record {
          device = device;
          file = opened.file;
          identity = opened.opening.identity;
          has_written = false;
        } }
    {
        OpenHandle {
            device,
            file: opened.file,
            identity: opened.opening.identity,
            has_written: false,
        }
    }
}

impl<F: OpenFile + Drop> OpenHandles<F> {
    pub(crate) fn new(alloc: Global, limit: usize) -> Result<Self, AllocError>
        requires { 0 < limit }
        ensures { IfOk result (λ handles. handles ≡ no_handles limit) }
    {
        let entries = VecDeque::with_capacity(alloc, limit)?;
        Ok(OpenHandles {
            entries,
            limit,
            lost: Vec::new(alloc),
            are_all_lost: false,
        })
    }

    /// Takes out the handle of a device, where it is open.
    pub(crate) fn take(&mut self, device: u64) -> Option<OpenHandle<F>>
        ensures own { IfSome result (λ handle. handle.device ≡ device) }
        ensures taken { IfSome result (λ handle. IsTaken handle self.old self.new) }
        ensures none { IfNone result (HasNone device self.old × (self.new ≡ self.old)) }
    {
        let place = place_of(&self.entries, device)?;
        let handle = self.entries.remove(place)?;
        Some(handle)
    }

    /// Closes the handle that was used longest ago, where there is no room for another.
    pub(crate) fn make_room(&mut self)
        ensures made { IsRoomMade self.old self.new }
        ensures room { length self.new.entries < self.new.limit }
    {
        if self.entries.len() < self.limit {
            return;
        }
        if let Some(handle) = self.entries.pop_back() {
            self.close(handle);
        }
    }

    /// Closes a handle.
    fn close(&mut self, handle: OpenHandle<F>)
        ensures closed { IsClosed handle self.old self.new }
        ensures limit { self.new.limit ≡ self.old.limit }
        ensures entries { self.new.entries ≡ self.old.entries }
    {
        if !handle.has_written || handle.file.sync_all().is_ok() {
            return;
        }
        if self.lost.push(handle.device).is_err() {
            self.are_all_lost = true;
        }
    }

    /// Puts in a device's handle, the one used last from now on, and makes room for it.
    pub(crate) fn put(&mut self, handle: OpenHandle<F>)
        ensures { IsPut handle self.old self.new }
    {
        self.make_room();
        self.entries.push_front_reserved(handle);
    }

    /// Whether a device is lost; it counts as told of it from here on.
    pub(crate) fn tell_loss(&mut self, device: u64) -> bool
        ensures told { result ≡ is_lost device self.old }
        ensures once { self.new ≡ with_loss_told device self.old }
    {
        let is_lost = self.are_all_lost || self.lost.contains(&device);
        self.lost.retain(|lost| *lost != device);
        is_lost
    }
}

/// The place of a device's handle, where it is open.
fn place_of<F>(entries: &VecDeque<OpenHandle<F>>, device: u64) -> Option<usize>
    ensures some { IfSome result (IsPlaceOf device entries.now.items) }
    ensures none { IfNone result (All (λ entry. entry.device ≢ device) entries.now.items) }
{
    entries.iter().position(|entry| entry.device == device)
}
