//! Hash trees that files of one root and length share in a part.
ghost use Rattle.std.specs.Prelude.{◌≡◌, ◌⊎◌, ◌≤◌, List, Some, IfErr, OnOk};
ghost use Rattle.std.specs.Io.KnownBytes.{Appends};
ghost use Rattle.bt_tree.specs.Blocks.{IsFileLength, block_count};
ghost use Rattle.bt_check.specs.Check.{CheckedFile};
ghost use Rattle.bt_check.specs.Fault.{device, out_of_memory};
ghost use Rattle.bt_check.specs.TreeSteps.{HasTree};
ghost use Rattle.bt_parts.specs.Line.{run_line};
ghost use Rattle.bt_jobs.specs.Trees.{IsReadyPart, file_in_part};
ghost use Rattle.bt_jobs.specs.TreesSteps.{ChecksBlocks, ChecksNext, ChecksPart, IsMeasured, IsNextPart, KnowsOwn, TellsAbsent, TellsFirst, TellsLength, TellsMissing, no_blocks};

use crate::share::{check_share, tell};
use bt_check::{Fault, FileHash, PieceSize, SharedTrees, key_of, length_of, take_tree};
use bt_disk::Disk;
use bt_meta::FileEntry;
use bt_parts::{Met, Run, Share};
use bt_sparse::SparseTree;
use bt_tree::{Geometry, Hash32};
use std::alloc::Global;
use std::collections::BTreeMap;
use std::io::Write;

/// A file of a torrent, with its number from 0 on, and what a part has of it.
#[derive(Clone, Copy)]
pub(crate) struct FilePart<'a> {
    pub number: u32,
    pub file: &'a FileEntry,
    pub share: Share,
}

/// What a part has of a file, with the device that has the file's bytes: none where no file can be at its path, or the
/// part has nothing of it.
#[derive(Drop)]
pub(crate) struct PartFile<'a, D> {
    pub part: FilePart<'a>,
    pub disk: Option<D>,
}

/// Checks what the part has of the next file, and tells of it.
pub(crate) fn check_next<D: Disk + Drop, W: Write>(
    alloc: Global,
    trees: &mut SharedTrees,
    opened: PartFile<'_, D>,
    size: PieceSize,
    writer: &mut W,
) -> Result<(), Fault>
    requires ready { IsReadyPart size.layer opened.part }
    requires trees { IsNextPart size.layer opened.part trees.old }
    ensures told { OnOk result (ChecksNext D.conduct size.layer opened.entry
        trees.old trees.new (W.contents writer.old) (W.contents writer.new)) }
    ensures fault { IfErr result (λ fault. (fault ≡ device) ⊎ (fault ≡ out_of_memory)) }
{
    let PartFile { part, disk } = opened;
    check_file(alloc, part, disk, size, &mut trees.kept, writer)?;
    trees.finish(part.file);
    Ok(())
}

/// Checks what a part has of a file, and tells of it.
fn check_file<D: Disk + Drop, W: Write>(
    alloc: Global,
    part: FilePart<'_>,
    disk: Option<D>,
    size: PieceSize,
    kept: &mut BTreeMap<(Hash32, u64), SparseTree<FileHash>>,
    writer: &mut W,
) -> Result<(), Fault>
    requires ready { IsReadyPart size.layer part }
    requires tree { (before : List CheckedFile) × HasTree size.layer before
        (file_in_part part) kept.old
        × KnowsOwn size.layer before (file_in_part part) }
    ensures told { OnOk result (ChecksPart D.conduct size.layer part.entry disk
        kept.old kept.new (W.contents writer.old) (W.contents writer.new)) }
    ensures fault { IfErr result (λ fault. (fault ≡ device) ⊎ (fault ≡ out_of_memory)) }
{
    match disk {
        Some(disk) => check_present(alloc, part, disk, size, kept, writer),
        None => tell_absent(alloc, part, writer),
    }
}

/// Checks what a part has of a data file.
fn check_present<D: Disk + Drop, W: Write>(
    alloc: Global,
    part: FilePart<'_>,
    disk: D,
    size: PieceSize,
    kept: &mut BTreeMap<(Hash32, u64), SparseTree<FileHash>>,
    writer: &mut W,
) -> Result<(), Fault>
    requires ready { IsReadyPart size.layer part }
    requires tree { (before : List CheckedFile) × HasTree size.layer before
        (file_in_part part) kept.old
        × KnowsOwn size.layer before (file_in_part part) }
    ensures told { OnOk result (ChecksPart D.conduct size.layer part.entry (Some disk)
        kept.old kept.new (W.contents writer.old) (W.contents writer.new)) }
    ensures fault { IfErr result (λ fault. (fault ≡ device) ⊎ (fault ≡ out_of_memory)) }
{
    let mut disk = disk;
    tell_length(alloc, part, &mut disk, writer)?;
    check_blocks(alloc, part, disk, size, kept, writer)
}

/// Asks for a data file's length where the part has the byte at which it begins, and tells what was met.
fn tell_length<D: Disk, W: Write>(
    alloc: Global,
    part: FilePart<'_>,
    disk: &mut D,
    writer: &mut W,
) -> Result<(), Fault>
    ensures told { OnOk result (TellsLength D.conduct part.entry disk.old disk.new
        (W.contents writer.old) (W.contents writer.new)) }
    ensures fault { IfErr result (λ fault. (fault ≡ device) ⊎ (fault ≡ out_of_memory)) }
{
    if !part.share.is_first {
        return Ok(());
    }
    let length = length_of(disk);
    let met = measured(length, part.file.length);
    tell_none(alloc, part, met, writer)
}

/// Checks a part's blocks of a data file; an empty file has none.
fn check_blocks<D: Disk + Drop, W: Write>(
    alloc: Global,
    part: FilePart<'_>,
    disk: D,
    size: PieceSize,
    kept: &mut BTreeMap<(Hash32, u64), SparseTree<FileHash>>,
    writer: &mut W,
) -> Result<(), Fault>
    requires ready { IsReadyPart size.layer part }
    requires tree { (before : List CheckedFile) × HasTree size.layer before
        (file_in_part part) kept.old
        × KnowsOwn size.layer before (file_in_part part) }
    ensures told { OnOk result (ChecksBlocks D.conduct size.layer part.entry disk
        kept.old kept.new (W.contents writer.old) (W.contents writer.new)) }
    ensures fault { IfErr result (λ fault. (fault ≡ device) ⊎ (fault ≡ out_of_memory)) }
{
    match Geometry::new(part.file.length) {
        Some(geometry) => check_known(alloc, part, disk, geometry, size, kept, writer),
        None => Ok(()),
    }
}

/// Checks a part's blocks of a data file, if it has some, by what is known of its tree, which is kept then.
fn check_known<D: Disk + Drop, W: Write>(
    alloc: Global,
    part: FilePart<'_>,
    disk: D,
    geometry: Geometry,
    size: PieceSize,
    kept: &mut BTreeMap<(Hash32, u64), SparseTree<FileHash>>,
    writer: &mut W,
) -> Result<(), Fault>
    requires ready { IsReadyPart size.layer part }
    requires length { geometry ≡ part.file.now.length }
    requires lawful { IsFileLength geometry }
    requires tree { (before : List CheckedFile) × HasTree size.layer before
        (file_in_part part) kept.old
        × KnowsOwn size.layer before (file_in_part part) }
    ensures told { OnOk result (ChecksBlocks D.conduct size.layer part.entry disk
        kept.old kept.new (W.contents writer.old) (W.contents writer.new)) }
    ensures fault { IfErr result (λ fault. (fault ≡ device) ⊎ (fault ≡ out_of_memory)) }
{
    if part.share.from >= part.share.to {
        return Ok(());
    }
    let mut tree = take_tree(alloc, geometry, part.file, size, kept)?;
    check_share(alloc, disk, &mut tree, part.number, part.share, writer)?;
    kept.insert(key_of(part.file), tree)?;
    Ok(())
}

/// Tells of a file that is not there: none of its blocks is right.
fn tell_absent<W: Write>(alloc: Global, part: FilePart<'_>, writer: &mut W) -> Result<(), Fault>
    requires forward { part.share.from ≤ part.share.to }
    requires inside { part.share.to ≤ block_count part.file.now.length }
    ensures told { OnOk result (TellsAbsent part.entry (W.contents writer.old)
        (W.contents writer.new)) }
    ensures fault { IfErr result (λ fault. (fault ≡ device) ⊎ (fault ≡ out_of_memory)) }
{
    tell_first(alloc, part, writer)?;
    tell_missing(alloc, part, writer)
}

/// Tells that there is no file, where the part has the byte at which it would begin.
fn tell_first<W: Write>(alloc: Global, part: FilePart<'_>, writer: &mut W) -> Result<(), Fault>
    ensures told { OnOk result (TellsFirst part.entry (W.contents writer.old)
        (W.contents writer.new)) }
    ensures fault { IfErr result (λ fault. (fault ≡ device) ⊎ (fault ≡ out_of_memory)) }
{
    if !part.share.is_first {
        return Ok(());
    }
    tell_none(alloc, part, Met::Absent, writer)
}

/// Tells of the blocks that a part has of a file which is not there, if there are some.
fn tell_missing<W: Write>(alloc: Global, part: FilePart<'_>, writer: &mut W) -> Result<(), Fault>
    requires { part.share.from ≤ part.share.to }
    ensures told { OnOk result (TellsMissing part.entry (W.contents writer.old)
        (W.contents writer.new)) }
    ensures fault { IfErr result (λ fault. (fault ≡ device) ⊎ (fault ≡ out_of_memory)) }
{
    if part.share.from == part.share.to {
        return Ok(());
    }
    let run = Run {
        file: part.number,
        from: part.share.from,
        to: part.share.to,
        marked: 0,
        met: Met::Absent,
    };
    tell(alloc, run, writer)
}

/// Tells what was met where the length of a file was asked for, by a run of no blocks.
fn tell_none<W: Write>(
    alloc: Global,
    part: FilePart<'_>,
    met: Met,
    writer: &mut W,
) -> Result<(), Fault>
    ensures told { OnOk result (Appends (W.contents writer.old) (W.contents writer.new)
        (run_line (no_blocks part.entry met))) }
    ensures fault { IfErr result (λ fault. (fault ≡ device) ⊎ (fault ≡ out_of_memory)) }
{
    let from = part.share.from;
    let run = Run {
        file: part.number,
        from,
        to: from,
        marked: 0,
        met,
    };
    tell(alloc, run, writer)
}

/// What is met where a device tells this length, or none.
fn measured(length: Option<u64>, file_length: u64) -> Met
    ensures { IsMeasured file_length length result }
{
    match length {
        Some(length) if length > file_length => Met::Longer,
        Some(_) => Met::Nothing,
        None => Met::Unmeasured,
    }
}
