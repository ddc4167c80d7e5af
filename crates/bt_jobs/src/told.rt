//! What the parts of a check tell, read line by line.
ghost use Rattle.std.specs.Prelude.{◌≡◌, ◌⊎◌, ◌≤◌, ◌++◌, [], ◌∷◌, ℕ, List, length, IfErr, IfSome, OnOk};
ghost use Rattle.bt_check.specs.Fault.{device, out_of_memory};
ghost use Rattle.bt_jobs.specs.Told.{IsToldBy, IsWhollyToldBy};

use bt_check::Fault;
use bt_parts::{Run, run_in};
use std::alloc::Global;

/// How long a line may be.
const LINE_MAX: usize = 128;

/// The runs that were told so far, and the beginning of a line of which the rest is to come.
#[derive(Drop)]
pub(crate) struct Told {
    pub runs: Vec<Run>,
    rest: Vec<u8>,
}

impl Told {
    /// Nothing is told yet.
    pub(crate) fn new(alloc: Global) -> Told
        ensures { IsToldBy [] result }
    {
        Told {
            runs: Vec::new(alloc),
            rest: Vec::new(alloc),
        }
    }

    /// Takes some bytes more, and the runs that lines tell which end among them. What is no line is a device fault.
    pub(crate) fn take_in(&mut self, bytes: &[u8]) -> Result<(), Fault>
        ensures told { OnOk result ((text : List ℕ) → IsToldBy text self.old
            → IsToldBy (text ++ bytes.now) self.new) }
        ensures onward { OnOk result (length self.old.runs.items ≤ length self.new.runs.items) }
        ensures fault { IfErr result (λ fault. (fault ≡ device) ⊎ (fault ≡ out_of_memory)) }
    {
        for byte in bytes {
            self.take_byte(*byte)?;
        }
        Ok(())
    }

    /// Takes one byte more.
    fn take_byte(&mut self, byte: u8) -> Result<(), Fault>
        ensures told { OnOk result ((text : List ℕ) → IsToldBy text self.old
            → IsToldBy (text ++ byte ∷ []) self.new) }
        ensures onward { OnOk result (length self.old.runs.items ≤ length self.new.runs.items) }
        ensures fault { IfErr result (λ fault. (fault ≡ device) ⊎ (fault ≡ out_of_memory)) }
    {
        if byte != b'\n' {
            if self.rest.len() >= LINE_MAX {
                return Err(Fault::Device);
            }
            self.rest.push(byte)?;
            return Ok(());
        }
        let Some(run) = run_in(&self.rest) else {
            return Err(Fault::Device);
        };
        self.runs.push(run)?;
        self.rest.clear();
        Ok(())
    }

    /// The runs, where nothing of a line is left.
    pub(crate) fn into_runs(self) -> Option<Vec<Run>>
        ensures { IfSome result
            (λ runs. (text : List ℕ) → IsToldBy text self → IsWhollyToldBy text runs.items) }
    {
        let Told { runs, rest } = self;
        if !rest.is_empty() {
            return None;
        }
        Some(runs)
    }
}
