//! The program, over any runtime, reader and writers.
ghost use Rattle.std.specs.Prelude.{◌≡◌, ◌≢◌, ◌≤◌, ◌⊎◌, map, string_bytes, IfOk, IfErr};
ghost use Rattle.std.specs.Io.KnownBytes.{Keeps};
ghost use Rattle.std.specs.Process.{exit_status};
ghost use Rattle.clap.specs.Words.{kind_of};
ghost use Rattle.bt_check.specs.Fault.{out_of_memory, status_of, words_fault};
ghost use Rattle.bt_words.specs.CommandLine.{IsTaskOf};
ghost use Rattle.bt_commands.specs.Program.{FillsLog, IsCheckResult, IsDone, IsExplanation, IsFetchResult, IsJoinedResult, IsMakeResult, IsPartResult, IsRun, IsSeedResult, IsShowResult, IsStart, IsTaskEnd, IsWholeResult, Writes};
ghost use Rattle.bt_commands.specs.ProgramSteps.{status_after};
ghost use Rattle.bt_words.specs.declared.command_line.Task.TheVariants.{Make, Show, Check, Seed, Fetch, Replay};

use crate::hints::{hint_at_full_log, hint_at_size};
use crate::refused_entry::hint_at_entry;
use bt_check::{BUFFER_LEN, Fault, Source, check_torrent, load_watched, show_torrent};
use bt_jobs::{Job, ProcessStarter, check_by_parts, check_part};
use bt_make::{ReadyTorrent, make, of_device, publish};
use bt_parts::Part;
use bt_progress::{Watch, escaped_lines};
use bt_replay::replay;
use bt_transfer::{NamedPeers, fetch, seed};
use bt_words::{CheckTask, FetchTask, MakeTask, SeedTask, ShowTask, Task, Work, parse};
use clap::Error;
use clap::error::ErrorKind;
use std::alloc::Global;
use std::env::{self, Env};
use std::io::{self, Read, Write};
use std::net::Net;
use std::process::{ExitCode, Processes};
use std::rt::Files;
use std::time::Clock;

/// Runs the program on the words of its environment, and gives the status that it exits with. How far its work
/// is, and which call failed, is told to `watch`, of which no clause speaks.
pub fn start<
    R: Env + Files + AllocGlobal + Clone + Drop,
    N: Net + Clock + Processes,
    P: Watch,
    I: Read,
    O: Write,
    E: Write,
>(rt: &R, net: &N, watch: &P, reader: &mut I, writer: &mut O, faults: &mut E) -> ExitCode
    ensures answer { IsStart (I.remaining reader.old) (I.remaining reader.new)
        (O.contents writer.old) (O.contents writer.new) (exit_status result) }
    ensures faultless { exit_status result ≤ 1 → Keeps (E.contents faults.old)
        (E.contents faults.new) }
{
    let status = match words(rt) {
        Ok(words) => run(rt, net, watch, words.as_slice(), reader, writer, faults),
        Err(fault) => report_fault(fault, faults),
    };
    ExitCode::from(status)
}

/// The words that follow the program's name.
fn words(rt: &(impl Env + AllocGlobal)) -> Result<Vec<String>, Fault>
    ensures { IfErr result (λ fault. (fault ≡ words_fault) ⊎ (fault ≡ out_of_memory)) }
{
    match env::args(rt) {
        Ok(words) => Ok(words.skip(1).collect(rt.alloc())?),
        Err(error) if error.kind() == io::ErrorKind::OutOfMemory => Err(Fault::OutOfMemory),
        Err(_) => Err(Fault::Words),
    }
}

/// Does what the words ask for, which follow the program's name, and returns the exit status: 0 where all is
/// complete or done, 1 where it is not, 2 where the words, the torrent or a log are refused, 3 for a device that
/// failed and 4 for out of memory.
///
/// A script comes from the reader. Results and help go to the writer, faults to `faults`.
pub fn run<
    R: Files + AllocGlobal + Clone + Drop,
    N: Net + Clock + Processes,
    P: Watch,
    I: Read,
    O: Write,
    E: Write,
>(
    rt: &R,
    net: &N,
    watch: &P,
    words: &[String],
    reader: &mut I,
    writer: &mut O,
    faults: &mut E,
) -> u8
    ensures answer { IsRun (map string_bytes words.now) (I.remaining reader.old)
        (I.remaining reader.new)
        (O.contents writer.old) (O.contents writer.new) result }

    // where the words, the torrent or a log are refused, nothing is written; but that a log is full shows after
    // what was done, and a script's bad line comes after the answers of those before it
    ensures refused { ¬ IsTaskOf (map string_bytes words.now) Replay → result ≡ 2
        → Keeps (O.contents writer.old) (O.contents writer.new)
        ⊎ FillsLog (map string_bytes words.now) (O.contents writer.old) (O.contents writer.new) }

    // nothing but a script is read
    ensures unread { ¬ IsTaskOf (map string_bytes words.now) Replay
        → Keeps (I.remaining reader.old) (I.remaining reader.new) }

    // where there is a result, no fault is told
    ensures faultless { result ≤ 1 → Keeps (E.contents faults.old) (E.contents faults.new) }
{
    match attempt(rt, net, watch, words, reader, writer, faults) {
        Ok(status) => {
            watch.clear();
            status
        }
        Err(fault) => {
            watch.clear();
            report_fault(fault, faults)
        }
    }
}

/// Reads the words, and does what they ask for.
fn attempt<
    R: Files + AllocGlobal + Clone + Drop,
    N: Net + Clock + Processes,
    P: Watch,
    I: Read,
    O: Write,
    E: Write,
>(
    rt: &R,
    net: &N,
    watch: &P,
    words: &[String],
    reader: &mut I,
    writer: &mut O,
    faults: &mut E,
) -> Result<u8, Fault>
    ensures answer { IsRun (map string_bytes words.now) (I.remaining reader.old)
        (I.remaining reader.new)
        (O.contents writer.old) (O.contents writer.new) (status_after result) }
    ensures unread { ¬ IsTaskOf (map string_bytes words.now) Replay
        → Keeps (I.remaining reader.old) (I.remaining reader.new) }
    ensures faultless { status_after result ≤ 1 → Keeps (E.contents faults.old)
        (E.contents faults.new) }
{
    match parse(rt.alloc(), words) {
        Ok(task) => {
            watch.set_verbose(asks_to_tell(words));
            let source = torrent_of(&task);
            let log = log_of(&task);
            let outcome = perform(rt, net, watch, task, reader, writer, faults);
            hint_at_entry(rt, watch, source, &outcome);
            hint_at_full_log(rt.alloc(), watch, log, &outcome);
            outcome
        }
        Err(error) => explain(rt.alloc(), &error, writer, faults),
    }
}

/// Whether there is a word by which calls that fail are told of. No task of `replay` has it.
fn asks_to_tell(words: &[String]) -> bool {
    words.iter().any(|word| word.as_str() == "--verbose")
}

/// The torrent that a task is about: none of one that is made, or is in a script.
fn torrent_of<'a>(task: &Task<'a>) -> Option<Source<'a>> {
    match task {
        Task::Make(_) | Task::Replay => None,
        Task::Show(task) => Some(task.torrent),
        Task::Check(task) => Some(task.torrent),
        Task::Seed(task) => Some(task.torrent),
        Task::Fetch(task) => Some(task.torrent),
    }
}

/// The file of a task's log, where it has one.
fn log_of<'a>(task: &Task<'a>) -> Option<&'a str> {
    match task {
        Task::Seed(task) => task.log,
        Task::Fetch(task) => task.log,
        Task::Make(_) | Task::Show(_) | Task::Check(_) | Task::Replay => None,
    }
}

/// Does a task, and returns its status.
fn perform<
    R: Files + AllocGlobal + Clone + Drop,
    N: Net + Clock + Processes,
    P: Watch,
    I: Read,
    O: Write,
    E: Write,
>(
    rt: &R,
    net: &N,
    watch: &P,
    task: Task<'_>,
    reader: &mut I,
    writer: &mut O,
    faults: &mut E,
) -> Result<u8, Fault>
    ensures done { IfOk result (IsDone task.entry (I.remaining reader.old) (I.remaining reader.new)
        (O.contents writer.old) (O.contents writer.new)) }
    ensures ended { IfErr result (IsTaskEnd task.entry (O.contents writer.old)
        (O.contents writer.new)) }
    ensures unread { task.entry ≢ Replay → Keeps (I.remaining reader.old) (I.remaining reader.new) }
    ensures faultless { status_after result ≤ 1 → Keeps (E.contents faults.old)
        (E.contents faults.new) }
{
    match task {
        Task::Make(request) => perform_make(rt, watch, request, writer),
        Task::Show(task) => perform_show(rt, watch, task, writer),
        Task::Check(task) => perform_check(rt, net, watch, task, writer),
        Task::Seed(task) => perform_seed(rt, net, watch, task, writer),
        Task::Fetch(task) => perform_fetch(rt, net, watch, task, writer),
        Task::Replay => Ok(replay(rt.alloc(), reader, writer, faults)),
    }
}

fn perform_make<R: Files + AllocGlobal + Clone + Drop, P: Watch, O: Write>(
    rt: &R,
    watch: &P,
    request: MakeTask<'_>,
    writer: &mut O,
) -> Result<u8, Fault>
    ensures done { IfOk result
        (Writes (IsMakeResult request.entry) (O.contents writer.old) (O.contents writer.new)) }
    ensures ended { IfErr result
        (IsTaskEnd (Make request.entry) (O.contents writer.old) (O.contents writer.new)) }
{
    watch.set_verbose(request.verbose);
    let torrent = make(rt, watch, request)?;
    let ready = ReadyTorrent::new(rt.alloc(), torrent)?;
    publish(rt, watch, request.out, &ready, writer)?;
    Ok(0)
}

fn perform_show<R: Files + AllocGlobal, P: Watch, O: Write>(
    rt: &R,
    watch: &P,
    task: ShowTask<'_>,
    writer: &mut O,
) -> Result<u8, Fault>
    ensures done { IfOk result
        (Writes (IsShowResult task.entry.torrent) (O.contents writer.old) (O.contents writer.new)) }
    ensures ended { IfErr result
        (IsTaskEnd (Show task.entry) (O.contents writer.old) (O.contents writer.new)) }
{
    watch.set_verbose(task.verbose);
    let mut buffer = [0; BUFFER_LEN];
    let torrent = load_watched(rt, watch, task.torrent, &mut buffer)?;
    show_torrent(rt.alloc(), &torrent, writer)?;
    hint_at_size(rt.alloc(), watch, &torrent);
    Ok(0)
}

fn perform_check<R: Files + AllocGlobal + Clone + Drop, N: Processes, P: Watch, O: Write>(
    rt: &R,
    system: &N,
    watch: &P,
    task: CheckTask<'_>,
    writer: &mut O,
) -> Result<u8, Fault>
    ensures done { IfOk result
        (Writes (IsCheckResult task.entry) (O.contents writer.old) (O.contents writer.new)) }
    ensures ended { IfErr result
        (IsTaskEnd (Check task.entry) (O.contents writer.old) (O.contents writer.new)) }
{
    watch.set_verbose(task.verbose);
    match task.work {
        Work::Jobs(1) => perform_whole(rt, watch, task, writer),
        Work::Jobs(count) => perform_jobs(rt, system, watch, task, count, writer),
        Work::Part(part) => perform_part(rt, watch, task, part, writer),
    }
}

/// Checks all files by this process alone.
fn perform_whole<R: Files + AllocGlobal + Clone + Drop, P: Watch, O: Write>(
    rt: &R,
    watch: &P,
    task: CheckTask<'_>,
    writer: &mut O,
) -> Result<u8, Fault>
    ensures done { IfOk result (Writes (IsWholeResult task.entry.torrent task.entry.dir.now)
        (O.contents writer.old) (O.contents writer.new)) }
    ensures ended { IfErr result
        (IsTaskEnd (Check task.entry) (O.contents writer.old) (O.contents writer.new)) }
{
    let mut buffer = [0; BUFFER_LEN];
    let torrent = load_watched(rt, watch, task.torrent, &mut buffer)?;
    let summary = check_torrent(rt, watch, &torrent, task.dir, writer)?;
    summary.outcome()
}

/// Checks all files by several processes.
fn perform_jobs<R: Files + AllocGlobal + Clone + Drop, N: Processes, P: Watch, O: Write>(
    rt: &R,
    system: &N,
    watch: &P,
    task: CheckTask<'_>,
    count: u32,
    writer: &mut O,
) -> Result<u8, Fault>
    ensures done { IfOk result (Writes (IsJoinedResult task.entry.torrent task.entry.dir.now)
        (O.contents writer.old) (O.contents writer.new)) }
    ensures ended { IfErr result
        (IsTaskEnd (Check task.entry) (O.contents writer.old) (O.contents writer.new)) }
{
    let job = Job {
        source: task.torrent,
        dir: task.dir,
        count,
    };
    let mut starter = ProcessStarter::new(system);
    let summary = check_by_parts(rt, &mut starter, watch, job, writer)?;
    summary.outcome()
}

/// Checks a part of the files, and tells of it.
fn perform_part<R: Files + AllocGlobal + Clone + Drop, P: Watch, O: Write>(
    rt: &R,
    watch: &P,
    task: CheckTask<'_>,
    part: Part,
    writer: &mut O,
) -> Result<u8, Fault>
    ensures done { IfOk result
        (Writes (IsPartResult task.entry.torrent task.entry.dir.now part)
        (O.contents writer.old) (O.contents writer.new)) }
    ensures ended { IfErr result
        (IsTaskEnd (Check task.entry) (O.contents writer.old) (O.contents writer.new)) }
{
    let mut buffer = [0; BUFFER_LEN];
    let torrent = load_watched(rt, watch, task.torrent, &mut buffer)?;
    check_part(rt, &torrent, task.dir, part, writer)?;
    Ok(0)
}

fn perform_seed<R: Files + AllocGlobal + Clone + Drop, N: Net + Clock, P: Watch, O: Write>(
    rt: &R,
    net: &N,
    watch: &P,
    task: SeedTask<'_>,
    writer: &mut O,
) -> Result<u8, Fault>
    ensures done { IfOk result
        (IsSeedResult task.entry (O.contents writer.old) (O.contents writer.new)) }
    ensures ended { IfErr result
        (IsTaskEnd (Seed task.entry) (O.contents writer.old) (O.contents writer.new)) }
{
    watch.set_verbose(task.verbose);
    seed(
        rt,
        net,
        watch,
        task.torrent,
        task.dir,
        task.service,
        task.log,
        writer,
    )
}

fn perform_fetch<R: Files + AllocGlobal + Clone + Drop, N: Net + Clock, P: Watch, O: Write>(
    rt: &R,
    net: &N,
    watch: &P,
    task: FetchTask<'_>,
    writer: &mut O,
) -> Result<u8, Fault>
    ensures done { IfOk result
        (IsFetchResult task.entry (O.contents writer.old) (O.contents writer.new)) }
    ensures ended { IfErr result
        (IsTaskEnd (Fetch task.entry) (O.contents writer.old) (O.contents writer.new)) }
{
    watch.set_verbose(task.verbose);
    let named = NamedPeers {
        peers: &task.peers,
        are_together: task.is_together,
    };
    fetch(
        rt,
        net,
        watch,
        task.torrent,
        task.dir,
        named,
        task.log,
        writer,
    )
}

/// Prints help, or why the words are refused. Where that can't be written, there is the status alone.
fn explain<O: Write, E: Write>(
    alloc: Global,
    error: &Error,
    writer: &mut O,
    faults: &mut E,
) -> Result<u8, Fault>
    ensures answer { IsExplanation
        (kind_of error.now) (O.contents writer.old) (O.contents writer.new) (status_after result) }
    ensures faultless { status_after result ≤ 1 → Keeps (E.contents faults.old)
        (E.contents faults.new) }
{
    if error.kind() == ErrorKind::OutOfMemory {
        return Err(Fault::OutOfMemory);
    }
    if error.use_stderr() {
        let told = mistake_text(alloc, error)?;
        let _ = write!(faults, "{told}");
        Ok(2)
    } else {
        explain_help(error, writer)
    }
}

/// Why the words are refused, which may be in the text: escaped, as a stranger may have chosen them.
fn mistake_text(alloc: Global, error: &Error) -> Result<String, Fault>
    ensures fault { IfErr result (λ fault. fault ≡ out_of_memory) }
{
    let text = format!(in alloc; "{error}")?;
    Ok(escaped_lines(alloc, text.as_str())?)
}

/// Prints help, or the version.
fn explain_help<O: Write>(error: &Error, writer: &mut O) -> Result<u8, Fault>
    ensures { (status_after result ≡ 0) ⊎ (status_after result ≡ 3) }
{
    of_device(write!(writer, "{error}"))?;
    of_device(writer.flush())?;
    Ok(0)
}

/// Says why there is no result, and returns the status. Where it can't be said, there is the status alone.
pub fn report_fault<E: Write>(fault: Fault, faults: &mut E) -> u8
    ensures { result ≡ status_of fault }
{
    let _ = writeln!(faults, "btseed: {fault}");
    fault.status()
}
