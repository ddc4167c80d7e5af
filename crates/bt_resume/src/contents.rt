//! How a log is read from its device, and made on an empty one.
ghost use Rattle.std.specs.Prelude.{◌≡◌, ◌≢◌, ◌≤◌, IfOk, IfSome, IfNone, length};
ghost use Rattle.bt_resume.specs.Limits.{max_log_length};
ghost use Rattle.bt_resume.specs.LogText.{format_of, header};
ghost use Rattle.bt_resume.specs.ResumeLog.{Reads, Opens};
ghost use Rattle.bt_resume.specs.Contents.{text_of, end_of, IsHeaderCheck, IsWindowRead, IsContentsRead, IsMade};

use crate::error::LogError;
use crate::hint::Format;
use crate::hints::Hints;
use bt_disk::Disk;
use bt_hashreq::put;
use bt_tree::Hash32;
use std::alloc::Global;

/// How many bytes the header has: those that name the format, and the infohash.
pub(crate) const HEADER_LEN: usize = 40;

/// How many bytes are read at a time. No hint has more.
const WINDOW_LEN: usize = 65536;

/// How many bytes a log has at most.
pub(crate) const MAX_LOG_LEN: u64 = 1 << 40;

/// Where a log ends, and in which format it is there.
#[derive(Clone, Copy)]
pub(crate) struct End {
    pub(crate) at: u64,
    pub(crate) format: Format,
}

/// The hints of a log, and where they end.
#[derive(Drop)]
pub(crate) struct Contents {
    pub(crate) hints: Hints,
    pub(crate) end: End,
}

impl Contents {
    /// Hints that end at a byte.
    fn new(hints: Hints, at: u64) -> Contents
        ensures hints { result.hints ≡ hints }
        ensures end { result.end ≡ record { at = at; format = format_of hints } }
    {
        let format = hints.format();
        let end = End { at, format };
        Contents { hints, end }
    }
}

/// The bytes that every log of a torrent begins with, in a format.
pub(crate) fn header(format: Format, infohash: &Hash32) -> [u8; HEADER_LEN]
    ensures { result ≡ header format infohash.now }
{
    let mut bytes = [0; HEADER_LEN];
    match format {
        Format::One => put(&mut bytes, 0, b"btseed-1"),
        Format::Two => put(&mut bytes, 0, b"btseed-2"),
    }
    put(&mut bytes, 8, infohash);
    bytes
}

/// In which format the device begins with the header of the torrent's log; OtherTorrent, where in none.
fn check_header<D: Disk>(disk: &mut D, infohash: &Hash32) -> Result<Format, LogError>
    ensures { IsHeaderCheck D.conduct infohash.now disk.old result disk.new }
{
    let mut front = [0; HEADER_LEN];
    let Ok(count) = disk.read_at(0, &mut front) else {
        return Err(LogError::Device);
    };
    match header_format(&front[..count], infohash) {
        Some(format) => Ok(format),
        None => Err(LogError::OtherTorrent),
    }
}

/// In which format the bytes are the header of the torrent's log.
fn header_format(bytes: &[u8], infohash: &Hash32) -> Option<Format>
    ensures some { IfSome result (λ format. bytes.now ≡ header format infohash.now) }
    ensures none { IfNone result ((format : Format) → bytes.now ≢ header format infohash.now) }
{
    if bytes == header(Format::Two, infohash).as_slice() {
        return Some(Format::Two);
    }
    if bytes == header(Format::One, infohash).as_slice() {
        return Some(Format::One);
    }
    None
}

/// Reads a part of the device into a window, puts the hints that are read at its front after the others, and
/// says how many bytes spell them. The list asks for no more memory than `room` bytes.
fn read_window<D: Disk>(
    disk: &mut D,
    at: u64,
    window: &mut [u8],
    hints: &mut Hints,
    room: usize,
) -> Result<usize, LogError>
    ensures { IsWindowRead D.conduct at (length window.old) disk.old hints.old
        result hints.new disk.new }
{
    let Ok(count) = disk.read_at(at, window) else {
        return Err(LogError::Device);
    };
    let Ok(used) = hints.take(&window[..count], room) else {
        return Err(LogError::OutOfMemory);
    };
    Ok(used)
}

/// Reads the hints after a header of a format, of a device of `len` bytes.
fn read_hints<D: Disk>(
    alloc: Global,
    disk: &mut D,
    format: Format,
    len: u64,
) -> Result<Contents, LogError>
    requires within { len ≤ max_log_length }
    requires len { D.conduct.honest disk.old → len ≡ length (D.conduct.history disk.old).now.bytes }
    ensures { IsContentsRead D.conduct format disk.old result disk.new }
{
    let mut hints = Hints::new(alloc, format);
    let mut end = HEADER_LEN as u64;
    let mut window = [0; WINDOW_LEN];
    while end < len {
        let room = (len - end).min(WINDOW_LEN as u64) as usize;
        let used = read_window(disk, end, &mut window[..room], &mut hints, len as usize)?;
        if used == 0 {
            return Ok(Contents::new(hints, end));
        }
        end += used as u64;
    }
    Ok(Contents::new(hints, end))
}

/// Reads the log of a torrent from a device of `len` bytes.
fn read_contents<D: Disk>(
    alloc: Global,
    disk: &mut D,
    infohash: &Hash32,
    len: u64,
) -> Result<Contents, LogError>
    requires { D.conduct.honest disk.old → len ≡ length (D.conduct.history disk.old).now.bytes }
    ensures reads { Reads D.conduct infohash.now disk.old (text_of result) disk.new }
    ensures end { IfOk result (λ contents. contents.end ≡ end_of contents.hints) }
    ensures within { IfOk result (λ contents. contents.end.at ≤ max_log_length) }
{
    let format = check_header(disk, infohash)?;
    if len > MAX_LOG_LEN {
        return Err(LogError::TooLong);
    }
    read_hints(alloc, disk, format, len)
}

/// Reads the log of a torrent from its device.
pub(crate) fn read_log<D: Disk>(
    alloc: Global,
    disk: &mut D,
    infohash: &Hash32,
) -> Result<Contents, LogError>
    ensures reads { Reads D.conduct infohash.now disk.old (text_of result) disk.new }
    ensures end { IfOk result (λ contents. contents.end ≡ end_of contents.hints) }
    ensures within { IfOk result (λ contents. contents.end.at ≤ max_log_length) }
{
    let Ok(len) = disk.len() else {
        return Err(LogError::Device);
    };
    read_contents(alloc, disk, infohash, len)
}

/// Opens the log of a torrent: an empty device is given a header, which is synced, and any other is read.
pub(crate) fn open_log<D: Disk>(
    alloc: Global,
    disk: &mut D,
    infohash: &Hash32,
) -> Result<Contents, LogError>
    ensures opens { Opens D.conduct infohash.now disk.old (text_of result) disk.new }
    ensures end { IfOk result (λ contents. contents.end ≡ end_of contents.hints) }
    ensures within { IfOk result (λ contents. contents.end.at ≤ max_log_length) }
{
    let Ok(len) = disk.len() else {
        return Err(LogError::Device);
    };
    if len > 0 {
        return read_contents(alloc, disk, infohash, len);
    }
    make_log(disk, infohash)?;
    Ok(Contents::new(Hints::new(alloc, Format::Two), HEADER_LEN as u64))
}

/// Gives an empty device the header of the torrent's log, of format 2, and syncs it.
fn make_log<D: Disk>(disk: &mut D, infohash: &Hash32) -> Result<(), LogError>
    ensures { IsMade D.conduct infohash.now disk.old result disk.new }
{
    let Ok(()) = disk.write_at(0, &header(Format::Two, infohash)) else {
        return Err(LogError::Device);
    };
    let Ok(()) = disk.sync() else {
        return Err(LogError::Device);
    };
    Ok(())
}
