//! What logs that were spelled are read as, and what a crash leaves of a log. The functions do nothing when
//! they run.
ghost use Rattle.bt_resume.specs.Law.{SpellsOneHint, AreReadBack, HasOneReading, AreReadFirst, HintsComeFirst, KeptLogsOpen, OpenLogsKeep, KeptDevicesAreRead, KeptDevicesOpen, AttachKeeps, ReloadKeeps, AppendKeeps, FlushKeeps, AttachHolds, ReloadHolds, AppendHolds, FlushHolds, AttachStands, ReloadStands, AppendStands, FlushStands, FlushedStand};

use bt_disk::Disk;

/// A text that was spelled, in either format or in both, is read back: no hint's spelling begins another's,
/// bytes are read in one way, and what lies after the last whole hint does not matter. A text that goes on
/// has its hints first.
pub fn hints_are_read_back()
    ensures one { SpellsOneHint }
    ensures back { AreReadBack }
    ensures reading { HasOneReading }
    ensures first { AreReadFirst }
    ensures come_first { HintsComeFirst }
{}

/// Bytes that begin with a torrent's header and a text are a log of it, whose text goes on from this one; and
/// so the other way round.
pub fn kept_logs_open()
    ensures first { KeptLogsOpen }
    ensures back { OpenLogsKeep }
{}

/// An honest device with such bytes is read, and is opened, with a text that goes on from this one, and is not
/// refused for what its bytes are.
pub fn kept_devices_open<D: Disk>()
    ensures reads { KeptDevicesAreRead D.conduct }
    ensures opens { KeptDevicesOpen D.conduct }
{}

/// What every image since a moment begins with, every image goes on to begin with, through each call of a
/// log on an honest device, and at each moment within it.
pub fn logs_keep_hints<D: Disk>()
    ensures attach { AttachKeeps D.conduct }
    ensures reload { ReloadKeeps D.conduct }
    ensures append { AppendKeeps D.conduct }
    ensures flush { FlushKeeps D.conduct }
{}

/// Which text the device of a log holds where the next hint is due, after each call of a log on an honest
/// device. Once a flush succeeded, each later image begins with the one that was read and appended to until
/// then.
pub fn logs_hold_hints<D: Disk>()
    ensures attach { AttachHolds D.conduct }
    ensures reload { ReloadHolds D.conduct }
    ensures append { AppendHolds D.conduct }
    ensures flush { FlushHolds D.conduct }
{}

/// A text that a log keeps, and that every image since a moment begins with, stays so through each call of a
/// log on an honest device; from a flush that succeeded on, all that was held is such a text.
pub fn kept_hints_stand<D: Disk>()
    ensures attach { AttachStands D.conduct }
    ensures reload { ReloadStands D.conduct }
    ensures append { AppendStands D.conduct }
    ensures flush { FlushStands D.conduct }
    ensures flushed { FlushedStand D.conduct }
{}
