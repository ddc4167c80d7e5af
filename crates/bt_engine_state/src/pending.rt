//! Hints that wait to be written to a log; marks of blocks that follow each other are joined to runs.
ghost use Rattle.std.specs.Prelude.{◌≡◌, ◌+◌, ◌<◌, ◌≤◌, ◌↔◌, [], List, length, IsTrue, IfOk, IfErr, if◌then◌else◌};
ghost use Rattle.bt_resume.specs.Hint.{CanBeRead};
ghost use Rattle.bt_tree.specs.Limits.{max_block_count};
ghost use Rattle.bt_machine.specs.Hints.{mark_of, continues, joined_run, add_hint};
ghost use Rattle.bt_machine.specs.Blocks.{block_id};
ghost use Rattle.bt_machine.specs.LogCalls.{LogCall, AreLogCalls};
ghost use Rattle.bt_engine_state.specs.Writing.{WritesHints};

use crate::sizes::has_sizes;
use crate::writing::{append_all, flush_error};
use bt_disk::Disk;
use bt_machine::FlushError;
use bt_resume::{Hint, ResumeLog};
use std::alloc::{AllocError, Global};
use std::marker::Model;

/// Hints that wait to be written to a log, in the order of events. Marks of blocks that follow each other are
/// joined as they come, so that each run is as long as may be.
///
/// Only `reserve` takes memory.
#[derive(Drop)]
pub struct Pending {
    hints: Vec<Hint>,
}

impl Model for Pending {
    ghost use Rattle.std.specs.Prelude.{◌-◌, vec_len, vec_capacity};
    ghost use Rattle.bt_engine_state.specs.Pending.{PendingView, AreWritable};

    ghost Value = { PendingView };

    ghost view = { λ p. record {
      hints = p.hints.items;
      room = vec_capacity p.hints
          - vec_len p.hints;
    } };

    ghost invariant = { λ p. AreWritable p.hints.items };
}

impl Pending {
    /// No hint waits, and there is no room for one. It takes no memory.
    pub fn new(alloc: Global) -> Pending
        ensures { result ≡ record { hints = []; room = 0 } }
    {
        Pending {
            hints: Vec::new(alloc),
        }
    }

    /// Whether none waits.
    pub fn is_empty(&self) -> bool
        ensures { IsTrue result ↔ (self.now.hints ≡ []) }
    {
        self.hints.is_empty()
    }

    /// How many wait.
    pub fn len(&self) -> usize
        ensures { result ≡ length self.now.hints }
    {
        self.hints.len()
    }

    /// Makes room for `count` more hints. Errors: out of memory, and then nothing has changed.
    pub fn reserve(&mut self, count: usize) -> Result<(), AllocError>
        ensures hints { self.new.hints ≡ self.old.hints }
        ensures room { IfOk result (λ _. count ≤ self.new.room) }
        ensures more { self.old.room ≤ self.new.room }
        ensures refused { IfErr result (λ _. self.old.room < count) }
        ensures unchanged { IfErr result (λ _. self.new ≡ self.old) }
    {
        self.hints.reserve(count)
    }

    /// Puts a hint that can be read back after the others. Where it is a run that continues the last one, this
    /// one gets longer.
    pub fn push(&mut self, hint: Hint)
        requires room { 0 < self.old.room }
        requires readable { CanBeRead hint }
        ensures hints { self.new.hints ≡ add_hint self.old.hints hint }
        ensures room { self.old.room ≤ self.new.room + 1 }
    {
        has_sizes(&hint);
        if let Some(last) = self.hints.last_mut() {
            if lengthen(last, &hint) {
                return;
            }
        }
        self.hints.push_reserved(hint);
    }

    /// Puts the mark of a block after the others.
    pub fn push_mark(&mut self, file: u32, block: u32)
        requires room { 0 < self.old.room }
        requires within { block < max_block_count }
        ensures hints { self.new.hints ≡ add_hint self.old.hints (mark_of (block_id file block)) }
        ensures room { self.old.room ≤ self.new.room + 1 }
    {
        self.push(Hint::Marks {
            file,
            first: block,
            count: 1,
        });
    }

    /// Lets all of them go. The room that they had stays.
    pub fn clear(&mut self)
        ensures hints { self.new.hints ≡ [] }
        ensures room { self.new.room ≡ self.old.room + length self.old.hints }
    {
        self.hints.clear();
    }

    /// Appends all of them to a log, in their order, and has it flushed: then none waits any more. It ends at
    /// the first call that is refused. Takes no memory.
    ///
    /// Errors: `LogFull` where the log would get longer than 2^40 bytes; `Device`. Then all of them wait as
    /// before, also those that were appended: the log has forgotten these.
    pub fn write_to<D: Disk + Drop>(&mut self, log: &mut ResumeLog<D>) -> Result<(), FlushError>
        ensures written { (calls : List LogCall)
            × AreLogCalls D.conduct log.old calls log.new
            × WritesHints self.old.hints calls result self.new.hints }
        ensures unchanged { IfErr result (λ _. self.new ≡ self.old) }
        ensures room { IfOk result (λ _. self.new.room ≡ self.old.room + length self.old.hints) }
    {
        if let Err(cause) = append_all(&self.hints, log) {
            return Err(flush_error(cause));
        }
        if let Err(_) = log.flush() {
            return Err(FlushError::Device);
        }
        self.clear();
        Ok(())
    }
}

/// Makes a run longer by one that continues it, and says whether it does.
fn lengthen(run: &mut Hint, hint: &Hint) -> bool
    requires run { CanBeRead run.old }
    requires hint { CanBeRead hint.now }
    ensures continues { result ≡ continues run.old hint.now }
    ensures joined { run.new ≡ (if result then joined_run run.old hint.now else run.old) }
{
    let Hint::Marks {
        file: other,
        first: next,
        count: more,
    } = hint
    else {
        return false;
    };
    let Hint::Marks { file, first, count } = run else {
        return false;
    };
    if *file != *other || *first + *count != *next {
        return false;
    }
    *count += *more;
    true
}
