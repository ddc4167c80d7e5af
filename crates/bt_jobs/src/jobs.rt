//! The command `check` with several jobs: the parts are started, and what they tell is joined.
ghost use Rattle.std.specs.Prelude.{◌≡◌, ◌⊎◌, ◌<◌, ◌≤◌, [], ℕ, List, length, map, vec_capacity, vec_len, Ok, IfOk, IfErr, IsErrAnd, OnOk};
ghost use Rattle.std.specs.List.Sorted.{IsSorted};
ghost use Rattle.std.specs.Io.KnownBytes.{Appends, Keeps};
ghost use Rattle.bt_meta.specs.Torrent.{Metainfo};
ghost use Rattle.bt_check.specs.Fault.{device, out_of_memory, status_of};
ghost use Rattle.bt_check.specs.Report.{report_text};
ghost use Rattle.bt_check.specs.TorrentFile.{HasText, IsLoadFault};
ghost use Rattle.bt_check.specs.declared.report.FileFinding.{FileFinding};
ghost use Rattle.bt_jobs.specs.ByParts.{IsCheckByParts};
ghost use Rattle.bt_jobs.specs.JobsSteps.{AreHeard, AreWatched, HearsAll, IsGiven};
ghost use Rattle.bt_jobs.specs.Parts.{AreStarted, IsDone, IsOver, IsSeen, NoneIsLeft};
ghost use Rattle.bt_jobs.specs.PartsSteps.{IsAny, IsOneAtMost, IsOneMore, TurnAll};
ghost use Rattle.bt_jobs.specs.Starts.{Start, part_starts, start_fault, start_of};
ghost use Rattle.bt_jobs.specs.Told.{IsToldBy, TellsEach};

use crate::children::{end_all, look_at_all, part_commands, pass_to, wait_for_all};
use crate::report::{heard_of, write_report};
use crate::source::{Loaded, load_text};
use crate::start_fault::{StartFault, unstarted};
use crate::starter::{StartedPart, Starter};
use crate::told::Told;
use bt_check::{
    Fault, OPEN_FILES, Source, Summary, check_torrent, data_path, fault_name, is_device_fault,
    open_data_file,
};
use bt_disk::HandlePool;
use bt_meta::FileEntry;
use bt_parts::{Met, Run};
use bt_progress::{FileCall, Watch};
use bt_tree::BLOCK_LEN;
use std::alloc::Global;
use std::io::{self, ErrorKind, PipeReader, PipeWriter, Read, Write};
use std::process::Command;
use std::rt::Files;

/// What is told where a part can't be started.
const NOT_STARTED: &str = "a part of the check could not be started, by /proc/self/exe";

/// What is told where a part ended without having done what it was to, or told what is no part of the check.
const FAILED: &str = "a part of the check failed";

/// What is told where a part did not find a file that this process had opened: one that it reaches by a descriptor of its
/// own, say, which no part has.
const MISSED: &str = "a part of the check did not find a file that was opened before";

/// How many bytes of what the parts tell are read at a time.
const PIPE_LEN: usize = 4096;

/// The torrent whose files are checked, the folder in which they lie, and how many parts check them.
#[derive(Clone, Copy)]
pub struct Job<'a> {
    pub source: Source<'a>,
    pub dir: &'a str,
    pub count: u32,
}

/// Checks the files of a folder against a torrent by `job.count` runs of this program side by side, and writes what
/// they find: what a check by one writes, once all are done.
///
/// All files are looked at first, and one that can't be opened ends it before anything is started. A part that can't
/// be started, that ends without having done what it was to, tells what is no part of a check, or finds no file where
/// one was opened before, is a device that failed, but for want of memory, which is told as such; nothing is written
/// then. Whatever comes of it, no part is left. Errors: the torrent is refused, which is found before anything is
/// written; a call on a file, the pipe or the writer failed, or a part did; out of memory.
pub fn check_by_parts<R: Files + AllocGlobal + Clone + Drop, L: Starter, P: Watch, W: Write>(
    rt: &R,
    starter: &mut L,
    watch: &P,
    job: Job<'_>,
    writer: &mut W,
) -> Result<Summary, Fault>
    ensures report { IfOk result (λ summary. (torrent : Metainfo) × (found : List FileFinding)
        × HasText job.entry.source.is_info torrent
        × IsCheckByParts L.starts L.Part.stands job.entry torrent found summary starter.old
        starter.new
        × Appends (W.contents writer.old) (W.contents writer.new) (report_text found)) }
    ensures over { NoneIsLeft L.starts L.Part.stands starter.old starter.new }
    ensures fault { IfErr result (IsLoadFault job.entry.source.is_info) }
    ensures refused { IfErr result (λ fault. status_of fault ≡ 2
        → Keeps (W.contents writer.old) (W.contents writer.new)) }
{
    let loaded = load_text(rt, watch, job.source)?;
    let torrent = &loaded.torrent;
    let files = torrent.files();
    watch.begin(FileCall::Read);
    let opened = open_files(rt, watch, job.dir, files)?;
    if !opened.contains(&true) {
        return check_torrent(rt, watch, torrent, job.dir, writer);
    }
    let (mut output, input) = pipe_of_parts(rt, watch)?;
    let runs = runs_of_parts(rt.alloc(), starter, watch, job, &loaded, &mut output, input)?;
    if misses_a_file(&opened, &runs) {
        watch.tell(MISSED);
        return Err(Fault::Device);
    }
    let heard = of_parts(watch, heard_of(rt.alloc(), files, &runs))?;
    write_report(rt.alloc(), watch, job.dir, files, &heard, writer)
}

/// Opens the data files of some entries, in turn; the bytes of those that are there are to be read. Of each whether it
/// is there.
fn open_files<R: Files + AllocGlobal + Clone + Drop, P: Watch>(
    rt: &R,
    watch: &P,
    dir: &str,
    entries: &[FileEntry],
) -> Result<Vec<bool>, Fault>
    ensures fault { IfErr result (λ fault. (fault ≡ device) ⊎ (fault ≡ out_of_memory)) }
{
    let mut pool = HandlePool::new(rt.alloc(), rt.clone()?, OPEN_FILES)?;
    let mut opened = Vec::new(rt.alloc());
    for file in entries {
        let is_there = has_file(rt, watch, &mut pool, dir, file)?;
        opened.push(is_there)?;
    }
    Ok(opened)
}

/// Whether a part found no file where one was opened.
fn misses_a_file(opened: &[bool], runs: &[Run]) -> bool {
    runs.iter().any(|run| run.met == Met::Absent && opened.get(run.file as usize) == Some(&true))
}

/// Whether there is a data file, which is opened. A fault is told of.
fn has_file<R: Files + AllocGlobal + Drop, P: Watch>(
    rt: &R,
    watch: &P,
    pool: &mut HandlePool<R>,
    dir: &str,
    file: &FileEntry,
) -> Result<bool, Fault>
    ensures fault { IfErr result (λ fault. (fault ≡ device) ⊎ (fault ≡ out_of_memory)) }
{
    let path = data_path(rt.alloc(), dir, &file.path)?;
    let name = fault_name(rt.alloc(), watch, path.as_path().as_str())?;
    match open_data_file(rt, pool, path) {
        Ok(Some(_)) => {
            watch.expect(file.length);
            Ok(true)
        }
        Ok(None) => Ok(false),
        Err(fault) => {
            if let Some(name) = name {
                watch.tell_fault(FileCall::Open, name.as_str());
            }
            Err(fault)
        }
    }
}

/// The pipe by which parts tell. Where there is none, a part could not be started.
fn pipe_of_parts<R: Files, P: Watch>(rt: &R, watch: &P) -> Result<(PipeReader, PipeWriter), Fault>
    ensures fault { IfErr result (λ fault. (fault ≡ device) ⊎ (fault ≡ out_of_memory)) }
{
    of_start(watch, io::pipe(rt).map_err(|error| unstarted(error.kind())))
}

/// The runs that the parts tell by a pipe, in order. When it ends, no part is left.
fn runs_of_parts<L: Starter, P: Watch, I: Read>(
    alloc: Global,
    starter: &mut L,
    watch: &P,
    job: Job<'_>,
    loaded: &Loaded,
    output: &mut I,
    input: PipeWriter,
) -> Result<Vec<Run>, Fault>
    ensures told { IfOk result
        (λ runs. AreHeard (I.remaining output.old) (I.remaining output.new) runs.items) }
    ensures done { IfOk result (λ _. (parts : List L.Part)
        × AreStarted L.starts L.Part.stands (IsDone loaded.now.text.items) starter.old
        (part_starts job.entry.source.is_info job.entry.dir.now job.entry.count)
        starter.new parts) }
    ensures over { NoneIsLeft L.starts L.Part.stands starter.old starter.new }
    ensures fault { IfErr result (λ fault. (fault ≡ device) ⊎ (fault ≡ out_of_memory)) }
{
    let commands = part_commands(alloc, job)?;
    // The room for all, so that none is lost that was started.
    let mut parts = Vec::with_capacity(alloc, job.count as usize)?;
    let mut told = Told::new(alloc);
    hear_parts(
        starter, watch, loaded, commands, output, input, &mut parts, &mut told,
    )?;
    of_parts(watch, in_order(told))
}

/// Starts all parts, which tell by a pipe, and hears them to their ends. When it ends, no part is left.
fn hear_parts<L: Starter, P: Watch, I: Read>(
    starter: &mut L,
    watch: &P,
    loaded: &Loaded,
    commands: Vec<Command>,
    output: &mut I,
    input: PipeWriter,
    parts: &mut Vec<L::Part>,
    told: &mut Told,
) -> Result<(), Fault>
    requires none { parts.old.items ≡ [] }
    requires room { length commands.items ≤ vec_capacity parts.old }
    ensures told { OnOk result
        (HearsAll (I.remaining output.old) (I.remaining output.new) told.old told.new) }
    ensures done { OnOk result (AreStarted L.starts L.Part.stands (IsDone loaded.now.text.items)
        starter.old (map start_of commands.items) starter.new parts.new.items) }
    ensures over { (begun : List Start)
        × AreStarted L.starts L.Part.stands IsOver starter.old begun starter.new parts.new.items }
    ensures fault { IfErr result (λ fault. (fault ≡ device) ⊎ (fault ≡ out_of_memory)) }
{
    match start_and_hear(starter, watch, loaded, commands, output, input, parts, told) {
        Ok(()) => Ok(()),
        Err(fault) => {
            end_all(parts);
            Err(fault)
        }
    }
}

/// The same, but where it fails, parts may be left.
fn start_and_hear<L: Starter, P: Watch, I: Read>(
    starter: &mut L,
    watch: &P,
    loaded: &Loaded,
    commands: Vec<Command>,
    output: &mut I,
    input: PipeWriter,
    parts: &mut Vec<L::Part>,
    told: &mut Told,
) -> Result<(), Fault>
    requires none { parts.old.items ≡ [] }
    requires room { length commands.items ≤ vec_capacity parts.old }
    ensures told { OnOk result
        (HearsAll (I.remaining output.old) (I.remaining output.new) told.old told.new) }
    ensures done { OnOk result (AreStarted L.starts L.Part.stands (IsDone loaded.now.text.items)
        starter.old (map start_of commands.items) starter.new parts.new.items) }
    ensures all { (begun : List Start)
        × AreStarted L.starts L.Part.stands IsAny starter.old begun starter.new parts.new.items }
    ensures fault { IfErr result (λ fault. (fault ≡ device) ⊎ (fault ≡ out_of_memory)) }
{
    let started = start_all(starter, watch, commands, &loaded.text, &input, parts);
    // Once the parts have ended, nobody is left who may write.
    drop(input);
    started?;
    let files = loaded.torrent.files();
    of_parts(watch, hear_to_ends(watch, files, output, parts, told))
}

/// Starts the parts of some commands, which tell by the pipe, and passes each a text.
fn start_all<L: Starter, P: Watch>(
    starter: &mut L,
    watch: &P,
    commands: Vec<Command>,
    text: &[u8],
    pipe: &PipeWriter,
    parts: &mut Vec<L::Part>,
) -> Result<(), Fault>
    requires none { parts.old.items ≡ [] }
    requires room { length commands.items ≤ vec_capacity parts.old }
    ensures started { OnOk result (AreStarted L.starts L.Part.stands (IsSeen text.now 0)
        starter.old (map start_of commands.items) starter.new parts.new.items) }
    ensures all { (begun : List Start)
        × AreStarted L.starts L.Part.stands IsAny starter.old begun starter.new parts.new.items }
    ensures fault { IfErr result (λ fault. (fault ≡ device) ⊎ (fault ≡ out_of_memory)) }
{
    for given in commands {
        start_one(starter, watch, given, text, pipe, parts)?;
    }
    Ok(())
}

/// Starts the part of a command, which tells by the pipe, and passes it a text. The command's own end of the pipe is
/// closed then. A part that was started is one of those that are given back, whatever comes of it.
fn start_one<L: Starter, P: Watch>(
    starter: &mut L,
    watch: &P,
    command: Command,
    text: &[u8],
    pipe: &PipeWriter,
    parts: &mut Vec<L::Part>,
) -> Result<(), Fault>
    requires room { vec_len parts.old < vec_capacity parts.old }
    ensures started { OnOk result (IsOneMore L.starts L.Part.stands (IsSeen text.now 0)
        (start_of command) starter.old starter.new parts.old.items parts.new.items) }
    ensures all { IsOneAtMost L.starts L.Part.stands (start_of command)
        starter.old starter.new parts.old.items parts.new.items }
    ensures room { vec_capacity parts.old ≤ vec_capacity parts.new }
    ensures fault { IfErr result (λ fault. (fault ≡ device) ⊎ (fault ≡ out_of_memory)) }
{
    let mut command = command;
    let outcome = starter.start(&mut command, pipe);
    drop(command);
    let mut part = of_start(watch, outcome)?;
    let passed = pass_to(&mut part, text);
    // There is the room that was made.
    let _ = parts.push(part);
    of_start(watch, passed)
}

/// What came of a start. Where it is a fault of a device, it is told what failed.
fn of_start<T, P: Watch>(watch: &P, outcome: Result<T, StartFault>) -> Result<T, Fault>
    ensures part { IfOk result (λ part. outcome ≡ Ok part) }
    ensures cause { IfErr result (λ fault. IsErrAnd outcome (λ cause. fault ≡ start_fault cause)) }
    ensures fault { IfErr result (λ fault. (fault ≡ device) ⊎ (fault ≡ out_of_memory)) }
{
    match outcome {
        Ok(part) => Ok(part),
        Err(cause) => {
            tell_start(watch, cause);
            Err(cause.fault())
        }
    }
}

/// Tells that a part could not be started, or that it failed.
fn tell_start<P: Watch>(watch: &P, cause: StartFault) {
    match cause {
        StartFault::NotStarted => watch.tell(NOT_STARTED),
        StartFault::Failed => watch.tell(FAILED),
        StartFault::OutOfMemory => {}
    }
}

/// The outcome of what parts did or told, which is told of where it is a fault of theirs.
fn of_parts<T, P: Watch>(watch: &P, outcome: Result<T, Fault>) -> Result<T, Fault>
    ensures { result ≡ outcome }
{
    if is_device_fault(&outcome) {
        watch.tell(FAILED);
    }
    outcome
}

/// The runs that were told, in the order of their files, and in each of its blocks.
fn in_order(told: Told) -> Result<Vec<Run>, Fault>
    ensures told { IfOk result (λ runs. (text : List ℕ) → IsToldBy text told
        → TellsEach text runs.items) }
    ensures order { IfOk result (λ runs. IsSorted ⟦<Run as Ord>⟧.cmp runs.items) }
    ensures fault { IfErr result (λ fault. (fault ≡ device) ⊎ (fault ≡ out_of_memory)) }
{
    let Some(mut runs) = told.into_runs() else {
        return Err(Fault::Device);
    };
    runs.sort()?;
    Ok(runs)
}

/// Hears parts, and waits for them, each of which has to do what it was to.
fn hear_to_ends<P: Watch, I: Read, C: StartedPart>(
    watch: &P,
    files: &[FileEntry],
    output: &mut I,
    children: &mut [C],
    told: &mut Told,
) -> Result<(), Fault>
    ensures told { OnOk result
        (HearsAll (I.remaining output.old) (I.remaining output.new) told.old told.new) }
    ensures done { OnOk result ((text : List ℕ)
        → TurnAll C.stands (IsSeen text 0) (IsDone text) children.old children.new) }
    ensures kept { TurnAll C.stands IsAny IsAny children.old children.new }
    ensures fault { IfErr result (λ fault. (fault ≡ device) ⊎ (fault ≡ out_of_memory)) }
{
    hear(watch, files, output, children, told)?;
    wait_for_all(children)
}

/// Hears parts until all have ended, or one without having done what it was to.
fn hear<P: Watch, I: Read, C: StartedPart>(
    watch: &P,
    files: &[FileEntry],
    output: &mut I,
    children: &mut [C],
    told: &mut Told,
) -> Result<(), Fault>
    ensures told { OnOk result
        (HearsAll (I.remaining output.old) (I.remaining output.new) told.old told.new) }
    ensures watched { OnOk result (AreWatched C.stands PIPE_LEN
        (I.remaining output.old) (I.remaining output.new) children.old children.new) }
    ensures kept { TurnAll C.stands IsAny IsAny children.old children.new }
    ensures fault { IfErr result (λ fault. (fault ≡ device) ⊎ (fault ≡ out_of_memory)) }
{
    let mut buffer = [0; PIPE_LEN];
    for _ in 0..u64::MAX {
        let count = read_some(output, &mut buffer)?;
        if count == 0 {
            return Ok(());
        }
        let before = told.runs.len();
        told.take_in(&buffer[..count])?;
        advance(watch, files, &told.runs[before..]);
        look_at_all(children)?;
    }
    Err(Fault::Device)
}

/// Reads once, and says how many bytes came: none where nobody is left who may write. A read that was interrupted is
/// made again.
fn read_some<I: Read>(reader: &mut I, buffer: &mut [u8]) -> Result<usize, Fault>
    requires { 0 < length buffer.old }
    ensures given { IfOk result (λ count. IsGiven (I.remaining reader.old)
        (I.remaining reader.new) count
        buffer.new) }
    ensures fault { IfErr result (λ fault. fault ≡ device) }
{
    // A bound, so that it ends whatever the system gives.
    for _ in 0..u64::MAX {
        match reader.read(buffer) {
            Ok(count) => return Ok(count),
            Err(error) if error.kind() == ErrorKind::Interrupted => {}
            Err(_) => return Err(Fault::Device),
        }
    }
    Err(Fault::Device)
}

/// Tells how far the work is, by runs that were told.
fn advance<P: Watch>(watch: &P, files: &[FileEntry], runs: &[Run]) {
    for run in runs {
        if let Some(file) = files.get(run.file as usize) {
            if run.met != Met::Absent {
                watch.advance(FileCall::Read, run_len(file.length, *run));
            }
        }
    }
}

/// How many bytes the blocks of a run have, in a file of this length.
fn run_len(length: u64, run: Run) -> u64 {
    let begin = (run.from as u64 * BLOCK_LEN as u64).min(length);
    let end = (run.to as u64 * BLOCK_LEN as u64).min(length);
    end.saturating_sub(begin)
}
