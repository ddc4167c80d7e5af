//! The command `show`.
ghost use Rattle.std.specs.Prelude.{◌≡◌, ◌⊎◌, string_bytes, IfOk, OnOk, IfErr};
ghost use Rattle.std.specs.Io.KnownBytes.{Appends};
ghost use Rattle.std.specs.List.{flat_map};
ghost use Rattle.bt_meta.specs.Files.{file_of};
ghost use Rattle.bt_check.specs.Display.{line_text};
ghost use Rattle.bt_check.specs.Show.{root_text, head_lines, entry_line, show_text};
ghost use Rattle.bt_check.specs.Fault.{device, out_of_memory};

use crate::display::{display_name, display_path};
use crate::fault::Fault;
use crate::output::write_text;
use bt_meta::{FileEntry, Torrent};
use std::alloc::{AllocError, Global};
use std::io::Write;

/// Writes what a torrent says: five lines on the whole, and a line for each file. After a fault the writer
/// has a part of the text, or all.
pub fn show_torrent<W: Write>(alloc: Global, torrent: &Torrent, writer: &mut W) -> Result<(), Fault>
    ensures text { OnOk result
        (Appends (W.contents writer.old) (W.contents writer.new) (show_text torrent.now)) }
    ensures fault { IfErr result (λ fault. (fault ≡ device) ⊎ (fault ≡ out_of_memory)) }
{
    write_text(writer, head(alloc, torrent)?.as_str())?;
    let files = torrent.files();
    for file in files {
        write_text(writer, file_line(alloc, file)?.as_str())?;
    }
    writer.flush().map_err(|_| Fault::Device)
}

/// The lines on the whole torrent.
fn head(alloc: Global, torrent: &Torrent) -> Result<String, AllocError>
    ensures { IfOk result (λ text. string_bytes text ≡ flat_map line_text
        (head_lines torrent.now)) }
{
    let name = display_name(alloc, torrent.name())?;
    let infohash = hex::encode(alloc, &torrent.infohash())?;
    let piece_length = torrent.piece_length();
    let pieces = torrent.pieces();
    let files = torrent.files().len();
    format!(in alloc;
        "name {name}\ninfohash {infohash}\npiece length {piece_length}\npieces {pieces}\nfiles {files}\n"
    )
}

/// The line of a file: its length, its root and its path.
fn file_line(alloc: Global, file: &FileEntry) -> Result<String, AllocError>
    ensures { IfOk result (λ text. string_bytes text ≡ line_text (entry_line (file_of file.now))) }
{
    let path = display_path(alloc, &file.path)?;
    let root = display_root(alloc, file)?;
    let length = file.length;
    format!(in alloc; "{length} {root} {path}\n")
}

/// The root of a file in hexadecimal, and `-` for an empty file, which has none.
fn display_root(alloc: Global, file: &FileEntry) -> Result<String, AllocError>
    ensures { IfOk result (λ text. string_bytes text ≡ root_text (file_of file.now)) }
{
    if file.length == 0 {
        return String::from_str(alloc, "-");
    }
    hex::encode(alloc, &file.root)
}
