//! When an engine is flushed, and its flushes between the turns of a session.
ghost use Rattle.std.specs.Prelude.{◌≡◌};
ghost use Rattle.bt_session.specs.Flushing.{is_flush_due};
ghost use Rattle.bt_session.specs.Parts.{IsPause};
ghost use Rattle.bt_session.specs.PeerSteps.{IsAlone};

use crate::calls::flush;
use crate::turn::Partner;
use bt_disk::Disk;
use bt_engine::Engine;
use bt_machine::FlushError;
use bt_tree::NodeHash;

/// When an engine is flushed that serves peers.
#[derive(Clone, Copy, Debug, PartialEq, Eq)]
pub enum Flushing {
    /// Never.
    Never,
    /// After each turn whose number is a multiple of this one; 0 is as 1, after each turn.
    Each(u32),
}

/// Flushes the engine where that is due after the turn of this number, and else does nothing. Errors: the
/// flush was refused.
pub(crate) fn flush_if_due<D: Disk + Drop, H: NodeHash>(
    engine: &mut Engine<D, H>,
    partner: Partner,
    taken: u64,
) -> Result<(), FlushError>
    requires alone { IsAlone partner.key engine.old.state }
    ensures pause { IsPause D.conduct H.digest partner.key partner.until_complete
        partner.flushing taken engine.old result engine.new }
    ensures alone { IsAlone partner.key engine.new.state }
{
    if is_flush_due(partner.flushing, taken) {
        flush(engine, partner.key)
    } else {
        Ok(())
    }
}

/// Whether a flush is due after the turn of this number.
fn is_flush_due(flushing: Flushing, taken: u64) -> bool
    ensures { result ≡ is_flush_due flushing taken }
{
    match flushing {
        Flushing::Never => false,
        Flushing::Each(every) => taken % u64::from(every.max(1)) == 0,
    }
}
