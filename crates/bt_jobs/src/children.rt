//! The parts of a check: by which commands they are started, and how they are passed the torrent, looked at, ended and
//! waited for.
ghost use Rattle.std.specs.Prelude.{◌≡◌, ◌⊎◌, ◌↔◌, ◌+◌, ◌++◌, [], ◌∷◌, ℕ, List, Some, pos, map, IfOk, IfErr, IsTrue, OnErr, OnOk};
ghost use Rattle.std.specs.List.{All, range_with_len};
ghost use Rattle.std.specs.Process.{command_args, command_program, exit_code};
ghost use Rattle.bt_check.specs.Fault.{device, out_of_memory};
ghost use Rattle.bt_jobs.specs.Children.{IsPartFault, info_words, part_words, program_text};
ghost use Rattle.bt_jobs.specs.Parts.{HasNotFailed, IsDone, IsOver, IsSeen};
ghost use Rattle.bt_jobs.specs.PartsSteps.{IsAny, TurnAll, Turns};

use crate::jobs::Job;
use crate::start_fault::{StartFault, early_end};
use crate::starter::StartedPart;
use bt_check::Fault;
use std::alloc::{AllocError, Global};
use std::io;
use std::process::{Command, ExitStatus};

/// The program that this process runs.
const PROGRAM: &str = "/proc/self/exe";

/// Where a part reads the torrent.
const STANDARD_INPUT: &str = "/dev/stdin";

/// The commands by which all parts are started, in their order.
pub(crate) fn part_commands(alloc: Global, job: Job<'_>) -> Result<Vec<Command>, AllocError>
    ensures programs { IfOk result
        (λ commands. All (λ command. command_program command ≡ program_text) commands.items) }
    ensures words { IfOk result (λ commands. map command_args commands.items
        ≡ map (λ index. part_words job.entry.source.is_info job.entry.dir.now index job.entry.count)
        (range_with_len 0 job.entry.count)) }
{
    let mut commands = Vec::with_capacity(alloc, job.count as usize)?;
    for index in 0..job.count {
        let command = part_command(alloc, job, index)?;
        commands.push(command)?;
    }
    Ok(commands)
}

/// The program and the words by which a part is started.
fn part_command(alloc: Global, job: Job<'_>, index: u32) -> Result<Command, AllocError>
    ensures program { IfOk result (λ command. command_program command ≡ program_text) }
    ensures words { IfOk result (λ command. command_args command
        ≡ part_words job.entry.source.is_info job.entry.dir.now index job.entry.count) }
{
    let count = job.count;
    let part = format!(in alloc; "{index}/{count}")?;
    let mut command = Command::new(alloc, PROGRAM)?;
    push_word(&mut command, "check")?;
    push_word(&mut command, "--part")?;
    push_word(&mut command, part.as_str())?;
    push_info(&mut command, job.source.is_info)?;
    push_word(&mut command, "--")?;
    push_word(&mut command, STANDARD_INPUT)?;
    push_word(&mut command, job.dir)?;
    Ok(command)
}

/// Adds a word to those of a command.
fn push_word(command: &mut Command, word: &str) -> Result<(), AllocError>
    ensures program { OnOk result (command_program command.new ≡ command_program command.old) }
    ensures words { OnOk result (command_args command.new ≡ command_args command.old
        ++ word.now ∷ []) }
{
    command.arg(word)?;
    Ok(())
}

/// Adds the word that says that the torrent is an info dictionary alone, where it is.
fn push_info(command: &mut Command, is_info: bool) -> Result<(), AllocError>
    ensures program { OnOk result (command_program command.new ≡ command_program command.old) }
    ensures words { OnOk result
        (command_args command.new ≡ command_args command.old ++ info_words is_info) }
{
    if !is_info {
        return Ok(());
    }
    push_word(command, "--info")
}

/// Passes a part a text. Errors: it did not take all of it; then it is over.
pub(crate) fn pass_to<C: StartedPart>(part: &mut C, text: &[u8]) -> Result<(), StartFault>
    ensures passed { OnOk result (Turns C.stands HasNotFailed
        (IsSeen text.now 0) part.old part.new) }
    ensures over { OnErr result (Turns C.stands IsAny IsOver part.old part.new) }
{
    match part.pass(text) {
        Ok(()) => Ok(()),
        Err(_) => Err(early_end(end_part(part))),
    }
}

/// Ends a part, and waits for it: how it ended, which may have been before.
fn end_part<C: StartedPart>(part: &mut C) -> io::Result<ExitStatus>
    ensures { Turns C.stands IsAny IsOver part.old part.new }
{
    part.end();
    part.join()
}

/// Ends all parts, and waits for them.
pub(crate) fn end_all<C: StartedPart>(children: &mut [C])
    ensures { TurnAll C.stands IsAny IsOver children.old children.new }
{
    for child in children.iter_mut() {
        let _ = end_part(child);
    }
}

/// Looks whether a part has ended that did not do what it was to. Waits for none.
pub(crate) fn look_at_all<C: StartedPart>(children: &mut [C]) -> Result<(), Fault>
    ensures seen { OnOk result ((text : List ℕ) → (looks : ℕ)
        → TurnAll C.stands (IsSeen text looks) (IsSeen text (looks + 1)) children.old
        children.new) }
    ensures kept { TurnAll C.stands IsAny IsAny children.old children.new }
    ensures fault { IfErr result (λ fault. (fault ≡ device) ⊎ (fault ≡ out_of_memory)) }
{
    for child in children.iter_mut() {
        look_at(child)?;
    }
    Ok(())
}

/// Looks whether a part has ended that did not do what it was to. Does not wait for it.
fn look_at<C: StartedPart>(child: &mut C) -> Result<(), Fault>
    ensures seen { OnOk result ((text : List ℕ) → (looks : ℕ)
        → Turns C.stands (IsSeen text looks) (IsSeen text (looks + 1)) child.old child.new) }
    ensures kept { Turns C.stands IsAny IsAny child.old child.new }
    ensures fault { IfErr result (λ fault. (fault ≡ device) ⊎ (fault ≡ out_of_memory)) }
{
    match child.look() {
        Ok(Some(status)) => part_outcome(status),
        Ok(None) => Ok(()),
        Err(_) => Err(Fault::Device),
    }
}

/// Waits for all parts, each of which has to do what it was to.
pub(crate) fn wait_for_all<C: StartedPart>(children: &mut [C]) -> Result<(), Fault>
    ensures ended { OnOk result ((text : List ℕ) → (looks : ℕ)
        → TurnAll C.stands (IsSeen text looks) (IsDone text) children.old children.new) }
    ensures kept { TurnAll C.stands IsAny IsAny children.old children.new }
    ensures fault { IfErr result (λ fault. (fault ≡ device) ⊎ (fault ≡ out_of_memory)) }
{
    for child in children.iter_mut() {
        wait_for(child)?;
    }
    Ok(())
}

/// Waits for a part, which has to do what it was to.
fn wait_for<C: StartedPart>(child: &mut C) -> Result<(), Fault>
    ensures ended { OnOk result ((text : List ℕ) → (looks : ℕ)
        → Turns C.stands (IsSeen text looks) (IsDone text) child.old child.new) }
    ensures kept { Turns C.stands IsAny IsAny child.old child.new }
    ensures fault { IfErr result (λ fault. (fault ≡ device) ⊎ (fault ≡ out_of_memory)) }
{
    match child.join() {
        Ok(status) => part_outcome(status),
        Err(_) => Err(Fault::Device),
    }
}

/// What the end of a part comes to: one that did not do what it was to is a device that failed, unless it told that
/// memory was short.
fn part_outcome(status: ExitStatus) -> Result<(), Fault>
    ensures well { OnOk result (exit_code status ≡ Some (pos 0)) }
    ensures fault { IfErr result (IsPartFault (exit_code status)) }
{
    if status.success() {
        return Ok(());
    }
    if was_short_of_memory(status) {
        return Err(Fault::OutOfMemory);
    }
    Err(Fault::Device)
}

/// Whether a part ended since memory was short.
pub(crate) fn was_short_of_memory(status: ExitStatus) -> bool
    ensures { IsTrue result ↔ (exit_code status ≡ Some (pos 4)) }
{
    status.code() == Some(4)
}
