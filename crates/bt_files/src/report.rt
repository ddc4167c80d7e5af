//! How far the files of an engine are, written as a check writes it.
ghost use Rattle.std.specs.Prelude.{◌≡◌, ◌⊎◌, ◌<◌, Some, length, slice_get, option_map, IfOk, IfErr, OnOk};
ghost use Rattle.std.specs.Io.KnownBytes.{Appends};
ghost use Rattle.bt_machine.specs.Report.{all_complete};
ghost use Rattle.bt_check.specs.Fault.{device, out_of_memory};
ghost use Rattle.bt_files.specs.Report.{engine_report, finding_of, state_lines};

use bt_check::{Fault, FileFinding, Finding, last_words, print, write_line};
use bt_disk::Disk;
use bt_engine::Engine;
use bt_tree::NodeHash;
use std::alloc::Global;
use std::io::Write;

/// Writes a line for each file of an engine's torrent, in order, and then the last line; gives whether all files are
/// complete. Errors: `Device` where the writer fails; `OutOfMemory`.
pub fn write_report<D: Disk + Drop, H: NodeHash, W: Write>(
    alloc: Global,
    engine: &Engine<D, H>,
    writer: &mut W,
) -> Result<bool, Fault>
    ensures text { OnOk result
        (Appends (W.contents writer.old) (W.contents writer.new) (engine_report engine.now.state)) }
    ensures complete { IfOk result (λ complete. complete ≡ all_complete engine.now.state) }
    ensures fault { IfErr result (λ fault. (fault ≡ device) ⊎ (fault ≡ out_of_memory)) }
{
    write_lines(alloc, engine, writer)?;
    let complete = engine.is_complete();
    print(writer, last_words(complete))?;
    Ok(complete)
}

/// Writes a line for each file.
fn write_lines<D: Disk + Drop, H: NodeHash, W: Write>(
    alloc: Global,
    engine: &Engine<D, H>,
    writer: &mut W,
) -> Result<(), Fault>
    ensures text { OnOk result
        (Appends (W.contents writer.old) (W.contents writer.new) (state_lines engine.now.state)) }
    ensures fault { IfErr result (λ fault. (fault ≡ device) ⊎ (fault ≡ out_of_memory)) }
{
    engine.keeps_laws();
    for (number, file) in engine.torrent().files().iter().enumerate() {
        let finding = finding_at(engine, number as u32);
        write_line(alloc, &FileFinding { file, finding }, writer)?;
    }
    Ok(())
}

/// How far a file is: of how many blocks how many are marked.
fn finding_at<D: Disk + Drop, H: NodeHash>(engine: &Engine<D, H>, file: u32) -> Finding
    requires { file < length engine.now.state.files }
    ensures { option_map finding_of (slice_get engine.now.state.files file) ≡ Some result }
{
    let Some(report) = engine.report(file) else {
        unreachable!();
    };
    Finding {
        blocks: report.blocks,
        marked: report.marked,
        longer: false,
        faulty: false,
    }
}
