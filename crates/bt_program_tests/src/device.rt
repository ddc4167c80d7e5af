//! A runtime that stands in for the file system, of which some calls fail.

use std::alloc::{Allocator, Global};
use std::fs::{File, Metadata, OpenFile, OpenOptions, Permissions};
use std::io::{self, ErrorKind, Read, Seek, SeekFrom, Write};
use std::path::PathBuf;
use std::rt::Files;

/// The calls that fail. Of the reads of a folder's list, and of standard input, that is the one after all that is
/// there. Output fails when it is flushed.
#[derive(Clone, Copy, PartialEq, Eq)]
pub enum Failing {
    Nothing,
    Looks,
    Opens,
    Reads,
    LastReads,
    Writes,
    Flushes,
    Syncs,
    LastSyncs,
    Folders,
    LastFolders,
    DotFolders,
    Renames,
    Modes,
    Removals,
    Links,
    Listings,
    EarlyListings,
    Numbers,
    Input,
    Output,
}

impl Failing {
    /// The error of a call, where it is one of those that fail.
    fn at(self, call: Failing) -> io::Result<()> {
        if self == call {
            Err(io::Error::from(ErrorKind::StorageFull))
        } else {
            Ok(())
        }
    }

    /// Which calls fail on what was opened at a path.
    fn of_path(self, path: &str) -> Failing {
        match self {
            Failing::LastFolders if path.ends_with("last") => Failing::Folders,
            Failing::DotFolders if path == "." => Failing::Folders,
            _ => self,
        }
    }

    /// What a look tells that met this: a folder or a regular file has no numbers, where these fail.
    fn told(self, metadata: Metadata) -> Metadata {
        if self != Failing::Numbers {
            return metadata;
        }
        if metadata.is_dir() {
            return Metadata::of_dir();
        }
        if metadata.is_file() {
            return Metadata::of_file(metadata.len());
        }
        metadata
    }
}

/// The host's file system, of which some calls fail, in which every folder lists these names, each with a zero after
/// it, and in which a path that ends in `pipe` is a device, which neither a read nor a write is to reach. Of looks and
/// opens those of a path that ends in `last` fail, and of reads the third of each file, or all of a path that ends in
/// `last`. A file that has bytes takes no mode any more, and one that has none is not synced, but where the syncs of a
/// path that ends in `last` are those that fail. Folders are synced apart from files: all fail, or those of a path that
/// ends in `last`, or that of the path `.`. An early listing is one of a folder in which no file `last` lies yet. What
/// lies at `proc` and at `sys` is a folder to a look that follows links, of the number 1, each on a device of its own,
/// and what lies at `null` is a device. What lies at `gone` is not there to such a look while it has bytes, and has none
/// from then on. Where numbers fail, that of each file and folder is 0, but to a look that does not follow links.
#[derive(Clone, Copy)]
pub struct Device<'a> {
    pub host: &'a HostRuntime,
    pub failing: Failing,
    pub names: &'a [u8],
}

/// The path of the host that stands for a path.
fn host_path(path: &str) -> &str {
    if path.ends_with("pipe") {
        "/dev/null"
    } else {
        path
    }
}

/// The same for a look that follows links.
fn followed_path(path: &str) -> &str {
    if path.ends_with("/proc") {
        "/proc"
    } else if path.ends_with("/sys") {
        "/sys"
    } else if path.ends_with("/null") {
        "/dev/null"
    } else {
        host_path(path)
    }
}

/// Empties a file, and fails where it had bytes.
fn empty(host: &HostRuntime, path: &str) -> io::Result<()> {
    if host.metadata(path)?.len() == 0 {
        return Ok(());
    }
    File::create(host, path)?;
    Err(io::Error::from(ErrorKind::NotFound))
}

/// Whether something lies at `last` in a folder.
fn has_last(host: &HostRuntime, folder: &str) -> io::Result<bool> {
    let mut path = PathBuf::from_str(host.alloc(), folder)?;
    path.push("last")?;
    Ok(host.symlink_metadata(path.as_path().as_str()).is_ok())
}

impl Alloc for Device<'_> {
    type A = Global;

    fn alloc(&self) -> Global {
        self.host.alloc()
    }
}

impl<'a> Files for Device<'a> {
    type File = DeviceFile;

    type Dir = DeviceDir<'a>;

    fn open_file(&self, how: &OpenOptions, path: &str) -> io::Result<DeviceFile> {
        if path.ends_with("last") {
            self.failing.at(Failing::Opens)?;
        }
        Ok(DeviceFile {
            file: self.host.open_file(how, path)?,
            failing: self.failing.of_path(path),
            reads: 0,
            has_bytes: false,
            is_last: path.ends_with("last"),
        })
    }

    fn open_dir(&self, path: &str) -> io::Result<DeviceDir<'a>> {
        if path.ends_with("last/") {
            self.failing.at(Failing::Opens)?;
        }
        if !has_last(self.host, path)? {
            self.failing.at(Failing::EarlyListings)?;
        }
        Ok(DeviceDir {
            names: self.names,
            failing: self.failing,
        })
    }

    fn metadata(&self, path: &str) -> io::Result<Metadata> {
        if path.ends_with("last") {
            self.failing.at(Failing::Looks)?;
        }
        if path.ends_with("/gone") {
            empty(self.host, path)?;
        }
        Ok(self.failing.told(self.host.metadata(followed_path(path))?))
    }

    fn symlink_metadata(&self, path: &str) -> io::Result<Metadata> {
        if path.ends_with("last") {
            self.failing.at(Failing::Looks)?;
        }
        self.host.symlink_metadata(host_path(path))
    }

    fn read_link<B: Allocator>(&self, alloc: B, path: &str) -> io::Result<PathBuf<B>> {
        self.failing.at(Failing::Links)?;
        self.host.read_link(alloc, path)
    }

    fn canonicalize<B: Allocator>(&self, alloc: B, path: &str) -> io::Result<PathBuf<B>> {
        self.host.canonicalize(alloc, path)
    }

    fn copy(&self, from: &str, to: &str) -> io::Result<u64> {
        self.host.copy(from, to)
    }

    fn rename(&self, from: &str, to: &str) -> io::Result<()> {
        self.failing.at(Failing::Renames)?;
        self.host.rename(from, to)
    }

    fn remove_file(&self, path: &str) -> io::Result<()> {
        self.failing.at(Failing::Removals)?;
        self.host.remove_file(path)
    }

    fn create_dir(&self, path: &str) -> io::Result<()> {
        self.host.create_dir(path)
    }

    fn remove_dir(&self, path: &str) -> io::Result<()> {
        self.host.remove_dir(path)
    }

    fn remove_dir_all<B: Allocator>(&self, alloc: B, path: &str) -> io::Result<()> {
        self.host.remove_dir_all(alloc, path)
    }
}

/// What a folder lists: its names, each with a zero after it.
#[derive(Drop)]
pub struct DeviceDir<'a> {
    names: &'a [u8],
    failing: Failing,
}

impl Read for DeviceDir<'_> {
    fn read(&mut self, buf: &mut [u8]) -> io::Result<usize> {
        if self.names.is_empty() {
            self.failing.at(Failing::Listings)?;
        }
        self.names.read(buf)
    }
}

#[derive(Drop)]
pub struct DeviceFile {
    file: File,
    failing: Failing,
    reads: u32,
    has_bytes: bool,
    is_last: bool,
}

impl Read for DeviceFile {
    fn read(&mut self, buf: &mut [u8]) -> io::Result<usize> {
        self.reads = self.reads.saturating_add(1);
        if self.reads == 3 {
            self.failing.at(Failing::Reads)?;
        }
        if self.is_last {
            self.failing.at(Failing::LastReads)?;
        }
        self.file.read(buf)
    }
}

impl Write for DeviceFile {
    fn write(&mut self, buf: &[u8]) -> io::Result<usize> {
        self.failing.at(Failing::Writes)?;
        self.has_bytes = true;
        self.file.write(buf)
    }

    fn flush(&mut self) -> io::Result<()> {
        self.failing.at(Failing::Flushes)?;
        self.file.flush()
    }
}

impl Seek for DeviceFile {
    fn seek(&mut self, to: SeekFrom) -> io::Result<u64> {
        self.file.seek(to)
    }
}

impl OpenFile for DeviceFile {
    fn metadata(&self) -> io::Result<Metadata> {
        Ok(self.failing.told(self.file.metadata()?))
    }

    fn set_len(&self, size: u64) -> io::Result<()> {
        self.file.set_len(size)
    }

    fn set_permissions(&self, permissions: Permissions) -> io::Result<()> {
        self.failing.at(Failing::Modes)?;
        if self.has_bytes {
            return Err(io::Error::from(ErrorKind::Other));
        }
        self.file.set_permissions(permissions)
    }

    fn sync_all(&self) -> io::Result<()> {
        if self.file.metadata()?.is_dir() {
            self.failing.at(Failing::Folders)?;
            return self.file.sync_all();
        }
        self.failing.at(Failing::Syncs)?;
        if self.failing == Failing::LastSyncs {
            return if self.is_last {
                Err(io::Error::from(ErrorKind::StorageFull))
            } else {
                self.file.sync_all()
            };
        }
        if !self.has_bytes {
            return Err(io::Error::from(ErrorKind::Other));
        }
        self.file.sync_all()
    }

    fn sync_data(&self) -> io::Result<()> {
        self.file.sync_data()
    }
}
