//! A torrent with the text that spells it, which the parts of a check are passed.
ghost use Rattle.std.specs.Prelude.{IfOk, IfErr};
ghost use Rattle.bt_check.specs.TorrentFile.{IsLoadFault, IsTorrentOfText};

use bt_check::{BUFFER_LEN, Fault, Source, fault_name, read_text, told};
use bt_devices::Watched;
use bt_meta::{Torrent, read_info, read_torrent};
use bt_progress::{FileCall, Watch};
use std::alloc::Global;
use std::fs;
use std::rt::Files;

/// A torrent, and the text that it was read from.
#[derive(Drop)]
pub(crate) struct Loaded {
    pub torrent: Torrent,
    pub text: Vec<u8>,
}

/// Reads a torrent from its file, and keeps the text.
pub(crate) fn load_text<R: Files + AllocGlobal, P: Watch>(
    rt: &R,
    watch: &P,
    source: Source<'_>,
) -> Result<Loaded, Fault>
    ensures spelled { IfOk result
        (λ loaded. IsTorrentOfText source.entry.is_info loaded.text.items loaded.torrent) }
    ensures fault { IfErr result (IsLoadFault source.entry.is_info) }
{
    let alloc = rt.alloc();
    let opened = fs::open(rt, source.path).map_err(|_| Fault::Device);
    let file = told(alloc, watch, FileCall::Open, source.path, opened)?;
    let name = fault_name(alloc, watch, source.path)?;
    let mut reader = Watched::new(file, watch, name);
    let mut buffer = [0; BUFFER_LEN];
    let text = read_text(alloc, &mut reader, &mut buffer)?;
    let torrent = spelled(alloc, &text, source.is_info)?;
    Ok(Loaded { torrent, text })
}

/// The torrent that a text spells, as an info dictionary alone or as a whole.
fn spelled(alloc: Global, text: &[u8], is_info: bool) -> Result<Torrent, Fault>
    ensures spelled { IfOk result (IsTorrentOfText is_info text.now) }
    ensures fault { IfErr result (IsLoadFault is_info) }
{
    if is_info {
        Ok(read_info(alloc, text)?)
    } else {
        Ok(read_torrent(alloc, text)?)
    }
}
