//! Taking in what the files of an engine have already.
ghost use Rattle.std.specs.Prelude.{[], ◌≡◌, ◌<◌, ◌↔◌, IsTrue, Some, true, length, slice_get, IfErr, MatchResult, OnOk};
ghost use Rattle.bt_machine.specs.declared.event.Event.TheVariants.{Adopt};
ghost use Rattle.bt_machine.specs.declared.event.Answer.{Answer};
ghost use Rattle.bt_machine.specs.View.{StepsTo};
ghost use Rattle.bt_engine.specs.Leads.{LeadsTo};
ghost use Rattle.bt_files.specs.Adoption.{IsAdoptionFault, IsTakenIn, StopsAtFile, TakesIn};

use bt_check::Fault;
use bt_disk::Disk;
use bt_engine::{AdoptError, Engine};
use bt_tree::NodeHash;

/// Takes in what the files of an engine have, one file after the other, where `filled` says that the file has bytes.
/// The devices of the other files are not called. `filled` has an entry for each file. Errors: a read failed, or out
/// of memory; the files before that one stay taken in.
pub fn adopt_files<D: Disk + Drop, H: NodeHash>(
    engine: &mut Engine<D, H>,
    filled: &[bool],
) -> Result<(), Fault>
    requires no_peer { engine.old.state.peers ≡ [] }
    requires each { length filled.now ≡ length engine.old.state.torrent.files }
    ensures taken_in { OnOk result
        (TakesIn D.conduct H.digest engine.old filled.now engine.new) }
    ensures fault { IfErr result
        (λ fault. StopsAtFile D.conduct H.digest engine.old filled.now fault engine.new) }
    ensures run { LeadsTo D.conduct H.digest engine.old engine.new }
    ensures torrent { engine.new.state.torrent ≡ engine.old.state.torrent }
    ensures no_peer { engine.new.state.peers ≡ [] }
{
    engine.keeps_laws();
    let count = engine.torrent().files().len() as u32;
    for file in 0..count {
        if is_filled(filled, file) {
            adopt_file(engine, file)?;
        }
    }
    Ok(())
}

/// Whether a file has bytes.
fn is_filled(filled: &[bool], file: u32) -> bool
    ensures { IsTrue result ↔ (slice_get filled.now file ≡ Some true) }
{
    filled.get(file as usize) == Some(&true)
}

/// Takes in what one file has: reads its blocks, and marks those that are right. Errors: a read failed, or out of
/// memory.
pub(crate) fn adopt_file<D: Disk + Drop, H: NodeHash>(
    engine: &mut Engine<D, H>,
    file: u32,
) -> Result<(), Fault>
    requires no_peer { engine.old.state.peers ≡ [] }
    requires inside { file < length engine.old.state.files }
    ensures step { (answer : Answer)
        × StepsTo D.conduct H.digest engine.old (Adopt file) answer engine.new
        × MatchResult result (λ _. IsTakenIn answer) (IsAdoptionFault answer) }
    ensures no_peer { engine.new.state.peers ≡ [] }
{
    match engine.adopt(file) {
        Ok(adopted) if adopted.faults == 0 => Ok(()),
        Ok(_) => Err(Fault::Device),
        Err(AdoptError::OutOfMemory) => Err(Fault::OutOfMemory),
        Err(AdoptError::NoFile | AdoptError::Busy) => unreachable!(),
    }
}
