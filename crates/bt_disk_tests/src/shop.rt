//! Where devices that are files come from: the system that rows use, its pool of open handles, and the folder
//! of the files.
ghost use Rattle.std.specs.Prelude.{◌<◌};

use crate::device::Device;
use crate::files::{disk_row, path_of};
use crate::folders::folder_row;
use crate::many::many_row;
use crate::system::{Counts, System, manner_of};
use bt_devices::Seal;
use bt_disk::{DeviceFault, FileDisk, HandlePool, PooledDisk};
use bt_folder::{CaseNames, KnownFiles};
use bt_rows::{RowError, Words, put, tell};
use std::alloc::{AllocError, Global};
use std::fs::Files;

/// A pool of open handles.
#[derive(Drop)]
enum Pool<'a> {
    Empty,
    Host(HandlePool<HostRuntime>),
    System(HandlePool<System<'a>>),
}

#[derive(Drop)]
pub struct Shop<'a> {
    pub host: &'a HostRuntime,
    counts: &'a Counts,
    top: &'a str,
    /// Whether files are those of the host, and not of the system that stands in for it.
    is_host: bool,
    pool: Pool<'a>,
    pub seal: &'a Seal,
    pub known: KnownFiles,
    pub names: CaseNames,
}

impl<'a> Shop<'a> {
    pub fn new(host: &'a HostRuntime, counts: &'a Counts, seal: &'a Seal, top: &'a str) -> Self {
        Shop {
            host,
            counts,
            top,
            is_host: true,
            pool: Pool::Empty,
            seal,
            known: KnownFiles::new(host.alloc()),
            names: CaseNames::new(host.alloc()),
        }
    }

    pub fn alloc(&self) -> Global {
        self.host.alloc()
    }

    pub fn system(&self) -> System<'a> {
        System {
            host: self.host,
            counts: self.counts,
        }
    }

    /// From here on files are those of the host, or of a system of this manner whose counts begin anew.
    pub fn system_row(&mut self, words: &mut Words, out: &mut String) -> Result<(), RowError> {
        put(&mut self.pool, Pool::Empty);
        let name = words.word();
        self.is_host = name == "host";
        if !self.is_host {
            self.counts.restart(manner_of(name)?);
        }
        tell(out, "a system")
    }

    /// A pool of at most as many open handles as a word says.
    fn pool_row(&mut self, words: &mut Words, out: &mut String) -> Result<(), RowError> {
        let limit = words.number()? as usize;
        if limit == 0 {
            return Err(RowError::Unread);
        }
        let pool = self.new_pool(limit)?;
        put(&mut self.pool, pool);
        tell(out, "a pool")
    }

    fn new_pool(&self, limit: usize) -> Result<Pool<'a>, AllocError>
        requires { 0 < limit }
    {
        if self.is_host {
            return self.host_pool(limit);
        }
        let pool = HandlePool::new(self.alloc(), self.system(), limit)?;
        Ok(Pool::System(pool))
    }

    fn host_pool(&self, limit: usize) -> Result<Pool<'a>, AllocError>
        requires { 0 < limit }
    {
        let host = self.host.clone()?;
        let pool = HandlePool::new(self.alloc(), host, limit)?;
        Ok(Pool::Host(pool))
    }

    /// The path of the next word.
    pub fn path(&self, words: &mut Words) -> Result<String, AllocError> {
        path_of(self.alloc(), self.top, words.word())
    }

    /// The path of the file of a number.
    pub fn numbered(&self, number: u32) -> Result<String, AllocError> {
        let top = self.top;
        format!(in self.alloc(); "{top}/many-{number}")
    }

    /// The device that is the file of the next words; an empty one where it is refused.
    pub fn file(&self, words: &mut Words) -> Result<Device<'a>, RowError> {
        let is_written = is_written(words)?;
        let path = self.path(words)?;
        Ok(self.opened(is_written, path.as_str()))
    }

    fn opened(&self, is_written: bool, path: &str) -> Device<'a> {
        if self.is_host {
            host_file(self.host, is_written, path)
        } else {
            system_file(self.system(), is_written, path)
        }
    }

    /// The same of a file of the pool.
    pub fn pooled(&mut self, words: &mut Words) -> Result<Device<'a>, RowError> {
        let is_written = is_written(words)?;
        let path = self.path(words)?;
        Ok(self.taken(is_written, path))
    }

    fn taken(&mut self, is_written: bool, path: String) -> Device<'a> {
        match &mut self.pool {
            Pool::Empty => Device::Empty,
            Pool::Host(pool) => host_device(pool, is_written, path),
            Pool::System(pool) => system_device(pool, is_written, path),
        }
    }
}

/// What is no row of a device.
pub fn shop_row(
    shop: &mut Shop<'_>,
    name: &str,
    words: &mut Words,
    out: &mut String,
) -> Result<(), RowError> {
    match name {
        "pool" => shop.pool_row(words, out),
        "calls" => shop.counts.tell(out),
        "most" => shop.counts.tell_most(out),
        "syncs" => shop.counts.tell_syncs(out),
        "disk" => disk_row(shop, words, out),
        "many" => many_row(shop, words, out),
        _ => folder_row(shop, name, words, out),
    }
}

/// Whether a file is to be written, and not only read.
fn is_written(words: &mut Words) -> Result<bool, RowError> {
    match words.word() {
        "read" => Ok(false),
        "write" => Ok(true),
        _ => Err(RowError::Unread),
    }
}

fn host_file<'a>(host: &HostRuntime, is_written: bool, path: &str) -> Device<'a> {
    match opened(host, is_written, path) {
        Ok(disk) => Device::File(disk),
        Err(_) => Device::Empty,
    }
}

fn system_file<'a>(system: System<'a>, is_written: bool, path: &str) -> Device<'a> {
    match opened(&system, is_written, path) {
        Ok(disk) => Device::SystemFile(disk),
        Err(_) => Device::Empty,
    }
}

fn host_device<'a>(
    pool: &mut HandlePool<HostRuntime>,
    is_written: bool,
    path: String,
) -> Device<'a> {
    match taken(pool, is_written, path) {
        Ok(disk) => Device::Pooled(disk),
        Err(_) => Device::Empty,
    }
}

fn system_device<'a>(
    pool: &mut HandlePool<System<'a>>,
    is_written: bool,
    path: String,
) -> Device<'a> {
    match taken(pool, is_written, path) {
        Ok(disk) => Device::SystemPooled(disk),
        Err(_) => Device::Empty,
    }
}

/// Whether a file is opened, to be read or to be written.
pub fn is_opened<R: Files>(rt: &R, is_written: bool, path: &str) -> bool {
    opened(rt, is_written, path).is_ok()
}

fn opened<R: Files>(
    rt: &R,
    is_written: bool,
    path: &str,
) -> Result<FileDisk<R::File>, DeviceFault> {
    if is_written {
        FileDisk::writing(rt, path)
    } else {
        FileDisk::reading(rt, path)
    }
}

fn taken<R: Files + Drop>(
    pool: &mut HandlePool<R>,
    is_written: bool,
    path: String,
) -> Result<PooledDisk<R>, DeviceFault> {
    if is_written {
        pool.writing(path)
    } else {
        pool.reading(path)
    }
}
