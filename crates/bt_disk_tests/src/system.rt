//! A system that stands in for the host's, of which calls may fail or do a part of what they are asked for.

use bt_rows::RowError;
use std::alloc::Allocator;
use std::cell::Cell;
use std::fmt::Write;
use std::fs::{File, Metadata, OpenFile, OpenOptions};
use std::io::{self, ErrorKind, Read, Seek, SeekFrom};
use std::rt::Files;

/// What the system makes of calls.
#[derive(Clone, Copy, PartialEq, Eq)]
pub enum Manner {
    /// It does as it is asked.
    Plain,
    /// A read or write moves two bytes at most, and each other one is interrupted before it moves any.
    Parts,
    /// A read moves two bytes at most, and each third one fails.
    ReadFaults,
    /// It has no space for what is written.
    Full,
    /// It opens no file, for want of rights.
    NoRights,
    /// It tells nothing of what is at a path, for want of rights.
    Hidden,
    /// A file that it finds at a path is gone before it is opened.
    Gone,
    /// The first file that it opens is the one at the path; each later one is a device, which took the file's
    /// place since the look at it.
    Swapped,
    /// Its first sync fails.
    SyncFault,
    /// It goes to no byte of a file, but to its end, changes and syncs no file, and tells nothing of one that is
    /// open, but once.
    Broken,
}

/// The manner of a name.
pub fn manner_of(name: &str) -> Result<Manner, RowError> {
    match name {
        "plain" => Ok(Manner::Plain),
        "parts" => Ok(Manner::Parts),
        "read-faults" => Ok(Manner::ReadFaults),
        "full" => Ok(Manner::Full),
        "no-rights" => Ok(Manner::NoRights),
        "hidden" => Ok(Manner::Hidden),
        "gone" => Ok(Manner::Gone),
        "swapped" => Ok(Manner::Swapped),
        "sync-fault" => Ok(Manner::SyncFault),
        "broken" => Ok(Manner::Broken),
        _ => Err(RowError::Unread),
    }
}

/// The manner of a system, and counts of the calls that were made of it.
#[derive(Drop)]
pub struct Counts {
    manner: Cell<Manner>,
    /// Files that were opened, and how many of these to be written.
    opened: Cell<u32>,
    to_write: Cell<u32>,
    /// Looks at a path.
    looks: Cell<u32>,
    /// Reads and writes of open files; and all other calls of them.
    moves: Cell<u32>,
    others: Cell<u32>,
    /// Those of these that are syncs, since the system began.
    syncs: Cell<u32>,
    /// Files that are open, and the most that were at one time.
    open: Cell<u32>,
    most_open: Cell<u32>,
}

impl Counts {
    pub fn new() -> Counts {
        Counts {
            manner: Cell::new(Manner::Plain),
            opened: Cell::new(0),
            to_write: Cell::new(0),
            looks: Cell::new(0),
            moves: Cell::new(0),
            others: Cell::new(0),
            syncs: Cell::new(0),
            open: Cell::new(0),
            most_open: Cell::new(0),
        }
    }

    /// Begins anew, when no file is open.
    pub fn restart(&self, manner: Manner) {
        self.manner.set(manner);
        self.forget();
        self.syncs.set(0);
        self.open.set(0);
        self.most_open.set(0);
    }

    fn forget(&self) {
        self.opened.set(0);
        self.to_write.set(0);
        self.looks.set(0);
        self.moves.set(0);
        self.others.set(0);
    }

    /// Tells the calls that were made since this was last asked.
    pub fn tell(&self, out: &mut String) -> Result<(), RowError> {
        let opened = self.opened.get();
        let to_write = self.to_write.get();
        let looks = self.looks.get();
        write!(out, "opened {opened}, {to_write} to write, looks {looks}")?;
        let moves = self.moves.get();
        let others = self.others.get();
        write!(out, ", moves {moves}, others {others}")?;
        self.forget();
        Ok(())
    }

    /// Tells the syncs of files and folders that were made since the system began.
    pub fn tell_syncs(&self, out: &mut String) -> Result<(), RowError> {
        let syncs = self.syncs.get();
        Ok(write!(out, "{syncs} syncs")?)
    }

    /// Tells the most files that were open at one time.
    pub fn tell_most(&self, out: &mut String) -> Result<(), RowError> {
        let most = self.most_open.get();
        Ok(write!(out, "{most} open at most")?)
    }

    fn open_one(&self, is_written: bool) {
        count(&self.opened);
        if is_written {
            count(&self.to_write);
        }
        let open = self.open.get().wrapping_add(1);
        self.open.set(open);
        self.most_open.set(self.most_open.get().max(open));
    }

    fn close_one(&self) {
        self.open.set(self.open.get().wrapping_sub(1));
    }

    fn manner(&self) -> Manner {
        self.manner.get()
    }

    /// Counts a read or write of `wanted` bytes, and says how many it moves.
    fn moved(&self, wanted: usize) -> io::Result<usize> {
        count(&self.moves);
        let number = self.moves.get();
        match self.manner() {
            Manner::Parts if number % 2 == 1 => Err(io::Error::from(ErrorKind::Interrupted)),
            Manner::ReadFaults if number % 3 == 0 => Err(io::Error::from(ErrorKind::Other)),
            Manner::Parts | Manner::ReadFaults => Ok(wanted.min(2)),
            _ => Ok(wanted),
        }
    }

    /// Counts another call, which fails where the system is broken.
    fn other_call(&self) -> io::Result<()> {
        count(&self.others);
        if self.manner() == Manner::Broken {
            return Err(io::Error::from(ErrorKind::Other));
        }
        Ok(())
    }

    /// Counts a sync, which fails where the system is broken, and the first one where it is of that manner.
    fn sync_call(&self) -> io::Result<()> {
        count(&self.syncs);
        if self.manner() == Manner::SyncFault && self.syncs.get() == 1 {
            return Err(io::Error::from(ErrorKind::Other));
        }
        self.other_call()
    }

    /// Counts a look at a file that is open. A broken system does it once too: a file is looked at when it is
    /// opened.
    fn look_at_open(&self) -> io::Result<()> {
        if self.others.get() == 0 {
            count(&self.others);
            return Ok(());
        }
        self.other_call()
    }
}

fn count(calls: &Cell<u32>) {
    calls.set(calls.get().wrapping_add(1));
}

/// The host's system, with a manner and counts of its own.
#[derive(Clone, Copy)]
pub struct System<'a> {
    pub host: &'a HostRuntime,
    pub counts: &'a Counts,
}

impl System<'_> {
    /// Refuses to open a file, where the system does.
    fn opens(&self) -> io::Result<()> {
        match self.counts.manner() {
            Manner::NoRights => Err(io::Error::from(ErrorKind::PermissionDenied)),
            Manner::Gone => Err(io::Error::from(ErrorKind::NotFound)),
            _ => Ok(()),
        }
    }

    /// Counts a look at a path, and refuses it, where the system does.
    fn looks(&self) -> io::Result<()> {
        count(&self.counts.looks);
        if self.counts.manner() == Manner::Hidden {
            return Err(io::Error::from(ErrorKind::PermissionDenied));
        }
        Ok(())
    }

    /// The path of the host that is opened in place of a path.
    fn opened_path<'p>(&self, path: &'p str) -> &'p str {
        if self.counts.manner() == Manner::Swapped && self.counts.most_open.get() > 0 {
            "/dev/null"
        } else {
            path
        }
    }
}

impl<'a> Files for System<'a> {
    type File = SystemFile<'a>;

    type Dir = <HostRuntime as Files>::Dir;

    fn open_file(&self, how: &OpenOptions, path: &str) -> io::Result<SystemFile<'a>> {
        self.opens()?;
        let file = self.host.open_file(how, self.opened_path(path))?;
        let full = OpenOptions::new().write(true).open(self.host, "/dev/full")?;
        self.counts.open_one(how.asks_write() || how.asks_append());
        Ok(SystemFile {
            file,
            full,
            counts: self.counts,
        })
    }

    fn open_dir(&self, path: &str) -> io::Result<Self::Dir> {
        self.host.open_dir(path)
    }

    fn metadata(&self, path: &str) -> io::Result<Metadata> {
        self.looks()?;
        self.host.metadata(path)
    }

    fn symlink_metadata(&self, path: &str) -> io::Result<Metadata> {
        self.host.symlink_metadata(path)
    }

    fn copy(&self, from: &str, to: &str) -> io::Result<u64> {
        self.host.copy(from, to)
    }

    fn rename(&self, from: &str, to: &str) -> io::Result<()> {
        self.host.rename(from, to)
    }

    fn remove_file(&self, path: &str) -> io::Result<()> {
        self.host.remove_file(path)
    }

    fn create_dir(&self, path: &str) -> io::Result<()> {
        self.host.create_dir(path)
    }

    fn remove_dir(&self, path: &str) -> io::Result<()> {
        self.host.remove_dir(path)
    }

    fn remove_dir_all<B: Allocator>(&self, alloc: B, path: &str) -> io::Result<()> {
        self.host.remove_dir_all(alloc, path)
    }
}

/// An open file of the system.
pub struct SystemFile<'a> {
    file: File,
    /// The host's own device that has no space.
    full: File,
    counts: &'a Counts,
}

impl Drop for SystemFile<'_> {
    fn drop(self) {
        self.counts.close_one();
        let SystemFile {
            file: _,
            full: _,
            counts: _,
        } = self;
    }
}

impl Read for SystemFile<'_> {
    fn read(&mut self, buf: &mut [u8]) -> io::Result<usize> {
        let count = self.counts.moved(buf.len())?.min(buf.len());
        self.file.read(&mut buf[..count])
    }
}

impl io::Write for SystemFile<'_> {
    fn write(&mut self, buf: &[u8]) -> io::Result<usize> {
        let count = self.counts.moved(buf.len())?.min(buf.len());
        if self.counts.manner() == Manner::Full {
            return self.full.write(buf);
        }
        self.file.write(&buf[..count])
    }

    fn flush(&mut self) -> io::Result<()> {
        self.file.flush()
    }
}

impl Seek for SystemFile<'_> {
    fn seek(&mut self, to: SeekFrom) -> io::Result<u64> {
        match to {
            SeekFrom::End(_) => count(&self.counts.others),
            _ => self.counts.other_call()?,
        }
        self.file.seek(to)
    }
}

impl OpenFile for SystemFile<'_> {
    fn metadata(&self) -> io::Result<Metadata> {
        self.counts.look_at_open()?;
        self.file.metadata()
    }

    fn set_len(&self, size: u64) -> io::Result<()> {
        self.counts.other_call()?;
        self.file.set_len(size)
    }

    fn sync_all(&self) -> io::Result<()> {
        self.counts.sync_call()?;
        self.file.sync_all()
    }

    fn sync_data(&self) -> io::Result<()> {
        self.counts.other_call()?;
        self.file.sync_data()
    }
}
