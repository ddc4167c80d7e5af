//! An open file, and what calls of a device make of it.
ghost use Rattle.std.specs.Prelude.{◌≡◌, ◌≢◌, ◌+◌, ◌<◌, ◌≤◌, ◌⊎◌, ◌↔◌, [], IsTrue, IfOk, OnOk, OnErr, length, take, drop};
ghost use Rattle.std.specs.Io.KnownBytes.{Consumes, IsAtEnd, Keeps};
ghost use Rattle.bt_disk.specs.FileDisk.{absent, access_of};
ghost use Rattle.bt_disk.specs.Handle.{EndsBy, IsReadAt, IsReadOfFile, IsWrittenAt};

use crate::disk::DeviceFault;
use crate::opening::Opening;
use std::fs::{Files, OpenFile, OpenOptions};
use std::io::{self, ErrorKind, Read, Seek, SeekFrom, Write};

/// A file that is not there, one that is read, or one that is read and written.
#[derive(Drop)]
pub(crate) enum Handle<F> {
    Absent,
    Reading(F),
    Writing(F),
}

/// A regular file that was opened, and what the system told of it then.
#[derive(Drop)]
pub struct Opened<F> {
    pub file: F,
    pub opening: Opening,
}

/// Opens a file to read and write it, and makes one with no bytes where there is none.
pub(crate) fn open_or_make<R: Files>(rt: &R, path: &str) -> Result<Opened<R::File>, DeviceFault> {
    let is_present = is_present(rt, path)?;
    match OpenOptions::new()
        .read(true)
        .write(true)
        .create(true)
        .open(rt, path)
    {
        Ok(file) => regular(file, !is_present),
        Err(_) => Err(DeviceFault),
    }
}

/// Opens a file that is there, to read it, or to read and write it: none, where there is no file.
pub(crate) fn open_present<R: Files>(
    rt: &R,
    path: &str,
    to_write: bool,
) -> Result<Option<Opened<R::File>>, DeviceFault> {
    if !is_present(rt, path)? {
        return Ok(None);
    }
    match OpenOptions::new().read(true).write(to_write).open(rt, path) {
        Ok(file) => Ok(Some(regular(file, false)?)),
        Err(error) if is_absence(error.kind()) => Ok(None),
        Err(_) => Err(DeviceFault),
    }
}

/// Whether there is a file. What is no regular file is refused unopened, since opening a pipe may wait.
fn is_present<R: Files>(rt: &R, path: &str) -> Result<bool, DeviceFault> {
    match rt.metadata(path) {
        Ok(metadata) if metadata.is_file() => Ok(true),
        Ok(_) => Err(DeviceFault),
        Err(error) if is_absence(error.kind()) => Ok(false),
        Err(_) => Err(DeviceFault),
    }
}

/// Whether an error of the system says that no file can be at a path: there is nothing, one of its folders is
/// missing or is no folder, or a name, or the path, is longer than the system takes.
pub fn is_absence(kind: ErrorKind) -> bool
    ensures { IsTrue result ↔ ((kind ≡ ErrorKind.NotFound)
        ⊎ (kind ≡ ErrorKind.NotADirectory) ⊎ (kind ≡ ErrorKind.InvalidFilename)) }
{
    matches!(
        kind,
        ErrorKind::NotFound | ErrorKind::NotADirectory | ErrorKind::InvalidFilename
    )
}

/// An open file, if it is a regular one, with what the system tells of it.
fn regular<F: OpenFile + Drop>(file: F, was_made: bool) -> Result<Opened<F>, DeviceFault> {
    match file.metadata() {
        Ok(metadata) if metadata.is_file() => {
            let opening = Opening::of_open(&metadata, was_made);
            Ok(Opened { file, opening })
        }
        _ => Err(DeviceFault),
    }
}

/// How many bytes a file has.
pub(crate) fn file_len<F: OpenFile>(file: &F) -> Result<u64, DeviceFault> {
    match file.metadata() {
        Ok(metadata) => Ok(metadata.len()),
        Err(_) => Err(DeviceFault),
    }
}

/// Reads bytes from byte `at` on, as [`read_file`]: none, where there is no file.
pub(crate) fn read_handle<F: Read + Seek>(
    handle: &mut Handle<F>,
    at: u64,
    out: &mut [u8],
) -> Result<usize, DeviceFault>
    ensures access { access_of handle.new ≡ access_of handle.old }
    ensures absent { access_of handle.old ≡ absent → result ≡ Ok 0 }
    ensures within { IfOk result (λ count. count ≤ length out.new) }
    ensures gives { access_of handle.old ≢ absent → IfOk result (λ count.
        IsReadOfFile F.stream_position F.stream_bytes F.remaining at (length out.new)
        (take count out.new)) }
{
    match handle {
        Handle::Absent => Ok(0),
        Handle::Reading(file) => read_file(file, at, out),
        Handle::Writing(file) => read_file(file, at, out),
    }
}

/// Reads bytes from byte `at` on until `out` is full or the file ends, and says how many came: none from the
/// end on, also where the system can't place such a read.
pub(crate) fn read_file<F: Read + Seek>(
    file: &mut F,
    at: u64,
    out: &mut [u8],
) -> Result<usize, DeviceFault>
    ensures within { IfOk result (λ count. count ≤ length out.new) }
    ensures gives { IfOk result (λ count.
        IsReadAt F.stream_position F.stream_bytes F.remaining
        file.old at (length out.new) (take count out.new) file.new) }
{
    match file.seek(SeekFrom::Start(at)) {
        Ok(_) => fill(file, out),
        Err(_) => read_past(file, at),
    }
}

/// What a read from byte `at` on gives that the system doesn't place: none, where the file ends there or
/// before. A file system may place no read past the longest file that it takes.
fn read_past<F: Seek>(file: &mut F, at: u64) -> Result<usize, DeviceFault>
    ensures none { IfOk result (λ count. count ≡ 0) }
    ensures past { OnOk result (EndsBy (F.stream_position file.old) (F.stream_bytes file.old) at) }
{
    match file.seek(SeekFrom::End(0)) {
        Ok(len) if len <= at => Ok(0),
        _ => Err(DeviceFault),
    }
}

/// Reads the next bytes until `out` is full or the file ends, and says how many came: short reads and
/// interrupted ones are made whole.
fn fill<F: Read>(file: &mut F, out: &mut [u8]) -> Result<usize, DeviceFault>
    ensures within { IfOk result (λ count. count ≤ length out.new) }
    ensures next { IfOk result (λ count.
        Consumes (F.remaining file.old) (F.remaining file.new) (take count out.new)) }
    ensures ended { IfOk result (λ count. count < length out.new → IsAtEnd (F.remaining file.new)) }
{
    let mut filled = 0;
    for _ in 0..u64::MAX {
        if filled >= out.len() {
            return Ok(filled);
        }
        match read_more(file, out, filled) {
            Ok(0) => return Ok(filled),
            Ok(count) => filled += count,
            Err(error) if error.kind() == ErrorKind::Interrupted => {}
            Err(_) => return Err(DeviceFault),
        }
    }
    Err(DeviceFault)
}

/// Makes one read, to be put after the bytes in front that are filled.
fn read_more<F: Read>(file: &mut F, out: &mut [u8], filled: usize) -> io::Result<usize>
    requires { filled < length out.old }
    ensures front { take filled out.new ≡ take filled out.old }
    ensures fits { IfOk result (λ count. filled + count ≤ length out.new) }
    ensures next { IfOk result (λ count.
        Consumes (F.remaining file.old) (F.remaining file.new) (take count (drop filled out.new))) }
    ensures ended { IfOk result (λ count. count ≡ 0 → IsAtEnd (F.remaining file.new)) }
    ensures kept { OnErr result (Keeps (F.remaining file.old) (F.remaining file.new)) }
{
    file.read(&mut out[filled..])
}

/// Writes all the bytes from byte `at` on.
pub(crate) fn write_file<F: Write + Seek>(
    file: &mut F,
    at: u64,
    bytes: &[u8],
) -> Result<(), DeviceFault>
    ensures written { OnOk result ((bytes.now ≡ [])
        ⊎ IsWrittenAt F.stream_position F.contents file.old at bytes.now file.new) }
{
    if bytes.is_empty() {
        return Ok(());
    }
    match file.seek(SeekFrom::Start(at)) {
        Ok(_) if file.write_all(bytes).is_ok() => Ok(()),
        _ => Err(DeviceFault),
    }
}
