//! What the parts of a check told, as the report of the whole.
ghost use Rattle.std.specs.Prelude.{◌≡◌, ◌⊎◌, ◌<◌, ◌≤◌, ◌^◌, List, map, length, IfOk, IfErr};
ghost use Rattle.std.specs.List.{All};
ghost use Rattle.std.specs.Io.KnownBytes.{Appends};
ghost use Rattle.bt_tree.specs.Limits.{max_file_length};
ghost use Rattle.bt_meta.specs.Files.{file_of};
ghost use Rattle.bt_check.specs.Fault.{device, out_of_memory};
ghost use Rattle.bt_check.specs.Report.{file_in, is_complete_report, is_faulty_report, report_text};
ghost use Rattle.bt_check.specs.declared.report.FileFinding.{FileFinding as Found};
ghost use Rattle.bt_jobs.specs.Report.{AreJoined, finding_of};

use bt_check::{
    Fault, FileFinding, Finding, Summary, data_path, fault_name, last_words, print, write_line,
};
use bt_meta::FileEntry;
use bt_parts::{Met, Run, blocks_of, join_runs};
use bt_progress::{FileCall, Watch};
use std::alloc::Global;
use std::io::Write;

/// What the parts told of a file: what their runs come to, and the first fault that one of them met.
#[derive(Clone, Copy)]
pub(crate) struct Heard {
    pub finding: Finding,
    pub fault: Option<Met>,
}

/// What was told of each of these files, by runs that stand in order. Where they are not the blocks of all files, each
/// once, a device failed.
pub(crate) fn heard_of(
    alloc: Global,
    files: &[FileEntry],
    runs: &[Run],
) -> Result<Vec<Heard>, Fault>
    requires few { length files.now < 2 ^ 32 }
    requires short { All (λ file. file.length ≤ max_file_length) (map file_of files.now) }
    ensures joined { IfOk result
        (λ heard. AreJoined 0 (map file_of files.now) runs.now (map finding_of heard.items)) }
    ensures fault { IfErr result (λ fault. (fault ≡ device) ⊎ (fault ≡ out_of_memory)) }
{
    let mut heard = Vec::new(alloc);
    let mut rest = runs;
    for number in 0..files.len() {
        let blocks = blocks_of(files[number].length);
        let Some((finding, behind)) = join_runs(number as u32, blocks, rest) else {
            return Err(Fault::Device);
        };
        let fault = first_fault(number as u32, rest);
        heard.push(Heard { finding, fault })?;
        rest = behind;
    }
    if !rest.is_empty() {
        return Err(Fault::Device);
    }
    Ok(heard)
}

/// The first fault that was met in a file, by runs of which the first are its own.
fn first_fault(file: u32, runs: &[Run]) -> Option<Met> {
    for run in runs {
        if run.file != file {
            return None;
        }
        if run.met.is_fault() {
            return Some(run.met);
        }
    }
    None
}

/// Writes the line of each file, after what is told of a fault there, and the last line.
pub(crate) fn write_report<P: Watch, W: Write>(
    alloc: Global,
    watch: &P,
    dir: &str,
    files: &[FileEntry],
    heard: &[Heard],
    writer: &mut W,
) -> Result<Summary, Fault>
    requires { length heard.now ≡ length files.now }
    ensures report { IfOk result (λ summary. (found : List Found)
        × (map file_in found ≡ map file_of files.now)
        × (map (λ f. f.finding) found ≡ map finding_of heard.now)
        × (summary.complete ≡ is_complete_report found) × (summary.faulty ≡ is_faulty_report found)
        × Appends (W.contents writer.old) (W.contents writer.new) (report_text found)) }
    ensures fault { IfErr result (λ fault. (fault ≡ device) ⊎ (fault ≡ out_of_memory)) }
{
    let mut summary = Summary {
        complete: true,
        faulty: false,
    };
    for number in 0..files.len() {
        let file = &files[number];
        let Heard { finding, fault } = heard[number];
        tell_fault(alloc, watch, dir, file, fault)?;
        write_line(alloc, &FileFinding { file, finding }, writer)?;
        summary = summary.with(finding);
    }
    print(writer, last_words(summary.complete))?;
    Ok(summary)
}

/// Tells which call on a data file failed first, where one did, as a check by one process does.
fn tell_fault<P: Watch>(
    alloc: Global,
    watch: &P,
    dir: &str,
    file: &FileEntry,
    fault: Option<Met>,
) -> Result<(), Fault>
    ensures { IfErr result (λ fault. fault ≡ out_of_memory) }
{
    let Some(met) = fault else {
        return Ok(());
    };
    let path = data_path(alloc, dir, &file.path)?;
    if let Some(name) = fault_name(alloc, watch, path.as_path().as_str())? {
        let call = match met {
            Met::Unmeasured => FileCall::Length,
            _ => FileCall::Read,
        };
        watch.tell_fault(call, name.as_str());
    }
    Ok(())
}
