//! A gate that numbers connections as they come, and writes a line as each goes.
ghost use Rattle.std.specs.Prelude.{[], ◌≡◌, ◌≢◌, ◌⊎◌, false, Ok, OnOk, IfErr, refl};
ghost use Rattle.std.proofs.Common.{◌∙◌};
ghost use Rattle.bt_files.specs.OpenFolder.{IsCallFault};
ghost use Rattle.bt_together.specs.Seating.{nobody};
ghost use Rattle.bt_together.specs.ServedLines.{Tells};
ghost use Rattle.bt_together.specs.TellsSteps.{tells_none, tells_on};

use crate::seating::Seating;
use crate::served_lines::tell_gone;
use bt_check::Fault;
use bt_swarm::{Due, Gate, SessionEnd};
use std::alloc::Global;
use std::io::Write;

/// A gate over another one. It numbers the connections of that gate as they come, `most` in all, and writes the line
/// of each as it goes. Once a line can't be written, it takes no new connection, and those that are there are served
/// on.
#[derive(Drop)]
pub(crate) struct NumberedGate<'g, G, W> {
    alloc: Global,
    inner: &'g mut G,
    writer: &'g mut W,
    most: u64,
    seating: Seating,
    /// Ok where all lines so far were written, else why one was not.
    written: Result<(), Fault>,
}

impl<'g, G: Gate, W: Write> NumberedGate<'g, G, W> {
    /// A gate over `inner` by which nobody has come yet.
    pub(crate) fn new(alloc: Global, inner: &'g mut G, most: u64, writer: &'g mut W) -> Self
        ensures inner { result.inner.ghost_name ≡ inner.entry.ghost_name }
        ensures same_gate { result.inner.now ≡ inner.old }
        ensures writer { result.writer.ghost_name ≡ writer.entry.ghost_name }
        ensures same_text { result.writer.now ≡ writer.old }
        ensures most { result.most ≡ most }
        ensures nobody { result.seating ≡ nobody }
        ensures unwritten { result.written ≡ Ok tt }
    {
        NumberedGate {
            alloc,
            inner,
            writer,
            most,
            seating: Seating::new(),
            written: Ok(()),
        }
    }

    /// How it went, once the swarm is over. Errors: why a line could not be written; `Device` where fewer than `most`
    /// came, or one went that was not there.
    pub(crate) fn outcome(&self) -> Result<(), Fault>
        ensures written { OnOk result (self.now.written ≡ Ok tt) }
        ensures came { OnOk result (self.now.seating.came ≡ self.now.most) }
        ensures there { OnOk result (self.now.seating.strays ≡ false) }
        ensures fault { IfErr self.now.written IsCallFault → IfErr result IsCallFault }
    {
        self.written?;
        if self.seating.came != self.most || self.seating.strays {
            return Err(Fault::Device);
        }
        Ok(())
    }
}

impl<'g, G: Gate, W: Write> Gate for NumberedGate<'g, G, W> {
    type R = G::R;

    type W = G::W;

    ghost gives = { λ reader writer. G.gives reader writer };

    ghost waits = { λ gate. G.waits gate.inner.now };

    ghost is_shut = { λ gate. (gate.written ≢ Ok tt) ⊎ (gate.seating.came ≡ gate.most)
        ⊎ G.is_shut gate.inner.now };

    ghost is_troubled = { λ gate. G.is_troubled gate.inner.now };

    ghost leads = { λ old passed new. (new.writer.ghost_name ≡ old.writer.ghost_name)
        × (new.most ≡ old.most)
        × Tells old.seating old.written (W.contents old.writer.now) passed
        new.seating new.written (W.contents new.writer.now) };

    fn wait(&mut self, at_once: bool) -> Due {
        self.inner.wait(at_once)
    }

    fn is_over(&self) -> bool {
        self.written.is_err() || self.seating.came == self.most || self.inner.is_over()
    }

    fn accept(&mut self, place: usize) -> Option<(G::R, G::W)> {
        if self.written.is_err() || self.seating.came >= self.most {
            return None;
        }
        let ways = self.inner.accept(place)?;
        self.seating.come(place);
        Some(ways)
    }

    fn is_ready(&self, place: usize) -> bool {
        self.inner.is_ready(place)
    }

    fn is_silent(&self, place: usize) -> bool {
        self.inner.is_silent(place)
    }

    fn has_trouble(&self) -> bool {
        self.inner.has_trouble()
    }

    fn tell(&mut self, place: usize, end: SessionEnd) {
        self.inner.tell(place, end);
        let number = self.seating.leave(place, end);
        self.written = tell_gone(self.alloc, self.written, number, end, self.writer);
    }

    ghost leads_nowhere = { λ gate.
        (refl, refl, tells_none gate.seating gate.written (W.contents gate.writer.now)) };

    ghost leads_on = { λ a b c first more one two. (
      two.0 ∙ one.0,
      two.1 ∙ one.1,
      tells_on a.seating a.written (W.contents a.writer.now) first b.seating b.written
          (W.contents b.writer.now) more c.seating c.written (W.contents c.writer.now) one.2 two.2,
    ) };
}
