//! The command `check`.
ghost use Rattle.std.specs.Prelude.{◌≡◌, ◌⊎◌, List, [], map, IfOk, IfErr};
ghost use Rattle.std.specs.List.{All};
ghost use Rattle.std.specs.Io.KnownBytes.{Appends};
ghost use Rattle.bt_check.specs.EntryCheck.{IsCheckable};
ghost use Rattle.bt_check.specs.DataFile.{file_at};
ghost use Rattle.bt_check.specs.Fault.{device, out_of_memory};
ghost use Rattle.bt_check.specs.Report.{IsReportOf, IsReportOn, lines_text, report_text};
ghost use Rattle.bt_check.specs.TreeSteps.{KeepsTrees};
ghost use Rattle.bt_check.specs.declared.report.FileFinding.{FileFinding};

use crate::data_file::{DataFile, open_data_files};
use crate::fault::Fault;
use crate::hint::hint_at_folder;
use crate::output::print;
use crate::pieces::PieceSize;
use crate::report::{FileFinding, Summary, last_words, write_line};
use crate::trees::SharedTrees;
use bt_disk::Disk;
use bt_meta::{Torrent, layers_are_of_trees};
use bt_progress::{FileCall, Watch};
use std::alloc::Global;
use std::io::Write;
use std::rt::Files;

/// Checks the files of a folder against a torrent, and writes what it finds: the line of each file as it is
/// done, in the order of the torrent, and the last line.
///
/// All files are opened first, and one that can't be opened ends it before anything is written. A read that
/// fails later does not: the summary tells it. The reads are watched, and where no file is there, a hint tells
/// it. Errors: a file could not be opened, or the text not be written; out of memory. The writer then has a
/// part of the text, or all.
pub fn check_torrent<R: Files + AllocGlobal + Clone + Drop, P: Watch, W: Write>(
    rt: &R,
    watch: &P,
    torrent: &Torrent,
    dir: &str,
    writer: &mut W,
) -> Result<Summary, Fault>
    ensures report { IfOk result (λ summary. (found : List FileFinding)
        × IsReportOn dir.now torrent.now found summary
        × Appends (W.contents writer.old) (W.contents writer.new) (report_text found)) }
    ensures fault { IfErr result (λ fault. (fault ≡ device) ⊎ (fault ≡ out_of_memory)) }
{
    // A torrent that was read has a lawful piece length, and its layers are those of its files.
    let Some(size) = PieceSize::new(torrent.piece_length()) else {
        unreachable!();
    };
    layers_are_of_trees();
    let entries = torrent.files();
    watch.begin(FileCall::Read);
    let files = open_data_files(rt, watch, dir, entries)?;
    if are_absent(&files) {
        hint_at_folder(rt, watch, torrent, dir);
    }
    let mut trees = SharedTrees::new(rt.alloc(), entries)?;
    let summary = check_each(rt.alloc(), files, size, &mut trees, writer)?;
    print(writer, last_words(summary.complete))?;
    Ok(summary)
}

/// Whether there is no data file at all.
fn are_absent<D>(files: &[DataFile<'_, D>]) -> bool {
    files.iter().all(|file| file.disk.is_none())
}

/// Checks some data files, in turn, by trees that were made for them, and writes the line of each. A file's device
/// goes with it.
fn check_each<D: Disk + Drop, W: Write>(
    alloc: Global,
    files: Vec<DataFile<'_, D>>,
    size: PieceSize,
    trees: &mut SharedTrees,
    writer: &mut W,
) -> Result<Summary, Fault>
    requires checkable { All (IsCheckable size.layer) (map file_at files.items) }
    requires trees { KeepsTrees size.layer [] (map file_at files.items) trees.old }
    ensures report { IfOk result (λ summary. (found : List FileFinding)
        × IsReportOf D.conduct size.layer files.entry.items found summary
        × Appends (W.contents writer.old) (W.contents writer.new) (lines_text found)) }
    ensures fault { IfErr result (λ fault. (fault ≡ device) ⊎ (fault ≡ out_of_memory)) }
{
    let mut summary = Summary {
        complete: true,
        faulty: false,
    };
    for DataFile { file, disk } in files {
        let finding = trees.check(alloc, disk, file, size)?;
        write_line(alloc, &FileFinding { file, finding }, writer)?;
        summary = summary.with(finding);
    }
    Ok(summary)
}
