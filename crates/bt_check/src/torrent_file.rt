//! Reading torrents from files.
ghost use Rattle.std.specs.Prelude.{◌≡◌, ◌⊎◌, ◌+◌, IfOk, IfErr, IfSome};
ghost use Rattle.bt_meta.specs.Limits.{max_text_length};
ghost use Rattle.bt_check.specs.TorrentFile.{HasText, IsLoadFault, IsSourceFault, IsTorrentOfText, text_in};
ghost use Rattle.bt_check.specs.Reader.{Gives};
ghost use Rattle.bt_check.specs.Fault.{device, out_of_memory};

use crate::call_fault::{fault_name, told};
use crate::fault::Fault;
use crate::reader::{BUFFER_LEN, fill};
use bt_devices::Watched;
use bt_meta::{MAX_TEXT_LENGTH, Torrent, read_info, read_torrent};
use bt_progress::{FileCall, Unwatched, Watch};
use std::alloc::Global;
use std::fs;
use std::io::Read;
use std::rt::Files;

/// A file that a torrent is read from.
#[derive(Clone, Copy, Debug, PartialEq, Eq)]
pub struct Source<'a> {
    pub path: &'a str,
    /// Whether it holds the info dictionary alone.
    pub is_info: bool,
}

/// Reads a torrent from its file. Errors: it is refused; a call on the file failed; out of memory.
pub fn load<R: Files + AllocGlobal>(
    rt: &R,
    source: Source<'_>,
    buffer: &mut [u8; BUFFER_LEN],
) -> Result<Torrent, Fault>
    ensures torrent { IfOk result (HasText source.entry.is_info) }
    ensures fault { IfErr result (IsLoadFault source.entry.is_info) }
{
    load_watched(rt, &Unwatched, source, buffer)
}

/// Reads a torrent from its file, as `load` does, and tells of the calls on the file. Errors: it is refused; a call on
/// the file failed; out of memory.
pub fn load_watched<R: Files + AllocGlobal, P: Watch>(
    rt: &R,
    watch: &P,
    source: Source<'_>,
    buffer: &mut [u8; BUFFER_LEN],
) -> Result<Torrent, Fault>
    ensures torrent { IfOk result (HasText source.entry.is_info) }
    ensures fault { IfErr result (IsLoadFault source.entry.is_info) }
{
    let alloc = rt.alloc();
    let opened = fs::open(rt, source.path).map_err(|_| Fault::Device);
    let file = told(alloc, watch, FileCall::Open, source.path, opened)?;
    let name = fault_name(alloc, watch, source.path)?;
    let mut reader = Watched::new(file, watch, name);
    read_source(alloc, &mut reader, source.is_info, buffer)
}

/// Reads a torrent, or the info dictionary of one alone, from what a reader has.
fn read_source<R: Read>(
    alloc: Global,
    reader: &mut R,
    is_info: bool,
    buffer: &mut [u8; BUFFER_LEN],
) -> Result<Torrent, Fault>
    ensures torrent { IfSome (R.remaining reader.old)
        (λ bytes. IfOk result (IsTorrentOfText is_info (text_in bytes))) }
    ensures refusal { IfSome (R.remaining reader.old)
        (λ bytes. IfErr result (IsSourceFault is_info bytes)) }
    ensures some_torrent { IfOk result (HasText is_info) }
    ensures some_fault { IfErr result (IsLoadFault is_info) }
{
    let text = read_text(alloc, reader, buffer)?;
    if is_info {
        Ok(read_info(alloc, &text)?)
    } else {
        Ok(read_torrent(alloc, &text)?)
    }
}

/// The bytes of a torrent: all that the reader has, but at most `MAX_TEXT_LENGTH` and one more, which show that
/// they are too many. Errors: a read failed; out of memory.
pub fn read_text<R: Read>(
    alloc: Global,
    reader: &mut R,
    buffer: &mut [u8; BUFFER_LEN],
) -> Result<Vec<u8>, Fault>
    ensures told { IfSome
        (R.remaining reader.old)
        (λ bytes. IfOk result (λ text. text.items ≡ text_in bytes)) }
    ensures given { IfOk result
        (λ text. Gives (R.remaining reader.old) (R.remaining reader.new)
        (max_text_length + 1) text.items) }
    ensures fault { IfErr result (λ fault. (fault ≡ device) ⊎ (fault ≡ out_of_memory)) }
{
    let mut text = Vec::new(alloc);
    while text.len() <= MAX_TEXT_LENGTH {
        let wanted = BUFFER_LEN.min(MAX_TEXT_LENGTH + 1 - text.len());
        let run = &mut buffer[..wanted];
        let count = fill(reader, run)?;
        text.extend_from_slice(&run[..count])?;
        if count < wanted {
            return Ok(text);
        }
    }
    Ok(text)
}
