//! A part of a check, as a run of the program does it.
ghost use Rattle.std.specs.Prelude.{◌≡◌, ◌⊎◌, ◌↔◌, ◌<◌, ◌^◌, ℕ, Bool, List, [], map, length, IfOk, IfErr, IfSome, IsTrue, OnOk};
ghost use Rattle.std.specs.List.{All, range_with_len};
ghost use Rattle.std.specs.Io.KnownBytes.{Appends};
ghost use Rattle.bt_meta.specs.Files.{file_of};
ghost use Rattle.bt_check.specs.Check.{CheckedFile};
ghost use Rattle.bt_check.specs.Fault.{device, out_of_memory};
ghost use Rattle.bt_check.specs.Paths.{path_below};
ghost use Rattle.bt_check.specs.TorrentFile.{HasText};
ghost use Rattle.bt_parts.specs.declared.run.Run.{Run as BlockRun};
ghost use Rattle.bt_jobs.specs.Part.{IsPartAt, IsPartReport};
ghost use Rattle.bt_jobs.specs.PartSteps.{IsNothing};
ghost use Rattle.bt_jobs.specs.Share.{runs_text};
ghost use Rattle.bt_jobs.specs.Trees.{ArePartFindings, GoByRoots, IsReadyPart, file_in_part, part_at};
ghost use Rattle.bt_jobs.specs.TreesSteps.{KeepsParts};

use crate::plan::shares_of;
use crate::trees::{FilePart, PartFile, check_next};
use bt_check::{Fault, OPEN_FILES, PieceSize, SharedTrees, data_path, open_data_file};
use bt_disk::{Disk, HandlePool, PooledDisk};
use bt_meta::{FileEntry, Torrent, layers_are_of_trees};
use bt_parts::{Part, Share};
use std::alloc::Global;
use std::io::Write;
use std::rt::Files;

/// Checks a part of the files of a folder against a torrent, and writes a line for each run of blocks as it is done.
///
/// The torrent is one that was read. All files of which the part has something are opened first. A file that can't be
/// opened ends it; a read that fails later does not: the lines tell it. Errors: a file could not be opened, or a line
/// not be written; out of memory.
pub fn check_part<R: Files + AllocGlobal + Clone + Drop, W: Write>(
    rt: &R,
    torrent: &Torrent,
    dir: &str,
    part: Part,
    writer: &mut W,
) -> Result<(), Fault>
    requires { (is_info : Bool) × HasText is_info torrent.now }
    ensures report { OnOk result ((runs : List BlockRun)
        × IsPartReport dir.now torrent.now part runs
        × Appends (W.contents writer.old) (W.contents writer.new) (runs_text runs)) }
    ensures fault { IfErr result (λ fault. (fault ≡ device) ⊎ (fault ≡ out_of_memory)) }
{
    // A torrent that was read has a lawful piece length, and its layers are those of its files.
    let Some(size) = PieceSize::new(torrent.piece_length()) else {
        unreachable!();
    };
    layers_are_of_trees();
    let entries = torrent.files();
    let shares = shares_of(rt.alloc(), entries, size, part)?;
    let files = open_part(rt, dir, entries, &shares)?;
    let mut trees = SharedTrees::new(rt.alloc(), entries)?;
    check_each(rt.alloc(), files, size, &mut trees, writer)
}

/// Opens the data files of which a part has something, to read them. They share a few handles.
fn open_part<'a, R: Files + AllocGlobal + Clone + Drop>(
    rt: &R,
    dir: &str,
    entries: &'a [FileEntry],
    shares: &[Share],
) -> Result<Vec<PartFile<'a, PooledDisk<R>>>, Fault>
    requires each { length shares.now ≡ length entries.now }
    requires few { length entries.now < 2 ^ 32 }
    ensures files { IfOk result
        (λ files. map file_in_part (map part_at files.items) ≡ map file_of entries.now) }
    ensures numbers { IfOk result
        (λ files. map (λ p. p.number) (map part_at files.items) ≡ range_with_len 0
        (length entries.now)) }
    ensures shares { IfOk result
        (λ files. map (λ p. p.share) (map part_at files.items) ≡ shares.now) }
    ensures paths { IfOk result (λ files. All (IsPartAt dir.now) files.items) }
    ensures fault { IfErr result (λ fault. (fault ≡ device) ⊎ (fault ≡ out_of_memory)) }
{
    let mut pool = HandlePool::new(rt.alloc(), rt.clone()?, OPEN_FILES)?;
    let mut files = Vec::new(rt.alloc());
    for number in 0..entries.len() {
        let part = FilePart {
            number: number as u32,
            file: &entries[number],
            share: shares[number],
        };
        let disk = open_share(rt, &mut pool, dir, part)?;
        files.push(PartFile { part, disk })?;
    }
    Ok(files)
}

/// Opens a data file, if the part has something of it.
fn open_share<R: Files + AllocGlobal + Drop>(
    rt: &R,
    pool: &mut HandlePool<R>,
    dir: &str,
    part: FilePart<'_>,
) -> Result<Option<PooledDisk<R>>, Fault>
    ensures path { IfOk result (λ found. IfSome found
        (λ disk. disk.path ≡ path_below dir.now (file_in_part part.entry).path)) }
    ensures fault { IfErr result (λ fault. (fault ≡ device) ⊎ (fault ≡ out_of_memory)) }
{
    if is_nothing(part.share) {
        return Ok(None);
    }
    let path = data_path(rt.alloc(), dir, &part.file.path)?;
    open_data_file(rt, pool, path)
}

/// Whether a part tells nothing of a file: it has none of its blocks, and not the byte at which it begins.
fn is_nothing(share: Share) -> bool
    ensures { IsTrue result ↔ IsNothing share }
{
    !share.is_first && share.from >= share.to
}

/// Checks what a part has of some files, in turn. A file's device goes with it.
fn check_each<D: Disk + Drop, W: Write>(
    alloc: Global,
    files: Vec<PartFile<'_, D>>,
    size: PieceSize,
    trees: &mut SharedTrees,
    writer: &mut W,
) -> Result<(), Fault>
    requires ready { All (IsReadyPart size.layer) (map part_at files.items) }
    requires trees { (layer_at : ℕ → List ℕ → List ℕ)
        × GoByRoots layer_at (map file_in_part (map part_at files.items))
        × KeepsParts size.layer layer_at [] (map file_in_part (map part_at files.items)) trees.old }
    ensures told { OnOk result ((runs : List BlockRun) × (checked : List CheckedFile)
        × ArePartFindings D.conduct size.layer [] files.entry.items runs checked
        × Appends (W.contents writer.old) (W.contents writer.new) (runs_text runs)) }
    ensures fault { IfErr result (λ fault. (fault ≡ device) ⊎ (fault ≡ out_of_memory)) }
{
    for data in files {
        check_next(alloc, trees, data, size, writer)?;
    }
    Ok(())
}
