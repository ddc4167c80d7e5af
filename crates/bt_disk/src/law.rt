//! What calls of an honest device leave in the images of a crash. A caller that knows which calls it made
//! knows by these laws what a crash leaves; the functions do nothing when they run.
ghost use Rattle.std.specs.Prelude.{ℕ, List, All};
ghost use Rattle.bt_disk.specs.History.{IsKeptSince, IsWithinSince};
ghost use Rattle.bt_disk.specs.Calls.{Call, HasCalls, Spares, EndsWithin};
ghost use Rattle.bt_disk.specs.Law.{SyncKeepsAll, LeavesOneImage, ReadsChangeNothing, CallsReachTheirRange, CallsKeepBytes, KeptFromNow, CallsKeepLengths, WithinFromNow};
ghost use Rattle.bt_disk.specs.Law.{NoCallsLead, OneCallLeads, CallsCompose};

use crate::disk::Disk;

/// After a sync that succeeded, a crash leaves what a read gives, whatever came before.
pub fn a_sync_keeps_all()
    ensures { SyncKeepsAll }
{}

/// Reads change nothing, so no image either.
pub fn reads_change_nothing()
    ensures { ReadsChangeNothing }
{}

/// A call changes an image only where it reaches: a write in its range and past the end, `set_len` past the
/// new length.
pub fn calls_reach_their_range()
    ensures { CallsReachTheirRange }
{}

/// A byte that every image has goes on to be in every image, at each moment, until a call reaches it.
pub fn calls_keep_bytes()
    ensures now { KeptFromNow }
    ensures later { CallsKeepBytes }
{}

/// No image grows longer than a number of bytes, at any moment, as long as no call goes further.
pub fn calls_keep_lengths()
    ensures now { WithinFromNow }
    ensures later { CallsKeepLengths }
{}

/// A loss leaves one image of a state: what `image` and `after_crash` of a device in memory give of it is the
/// same.
pub fn a_loss_leaves_one_image()
    ensures { LeavesOneImage }
{}

/// No call leads from a device to itself, one call that was answered is a list of one, and calls of a device
/// and then others are these calls one after the other.
pub fn calls_compose<D: Disk>()
    ensures none { NoCallsLead D.conduct }
    ensures one { OneCallLeads D.conduct }
    ensures both { CallsCompose D.conduct }
{}

/// Of an honest device, a byte that every image since a moment has, and that no call reaches, is in every
/// image since.
pub fn devices_keep_bytes<D: Disk>()
    ensures { (old new : D) (calls : List Call) (t i byte : ℕ) → D.conduct.honest old
        → HasCalls D.conduct old calls new → All (Spares i) calls
        → IsKeptSince (D.conduct.history old) t i byte → IsKeptSince
        (D.conduct.history new) t i byte }
{}

/// Of an honest device, where every image since a moment has at most `n` bytes, and no call goes further,
/// every image since has at most `n`.
pub fn devices_keep_lengths<D: Disk>()
    ensures { (old new : D) (calls : List Call) (t n : ℕ) → D.conduct.honest old
        → HasCalls D.conduct old calls new → All (EndsWithin n) calls
        → IsWithinSince (D.conduct.history old) t n → IsWithinSince (D.conduct.history new) t n }
{}
