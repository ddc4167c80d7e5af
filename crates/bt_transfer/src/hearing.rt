//! What a command hears at its end of a bell, which rings where a device refuses a write.
ghost use Rattle.std.specs.Prelude.{⊤, ◌≡◌, Bool, false, true, IfErr, OnOk};
ghost use Rattle.bt_check.specs.Fault.{device};
ghost use Rattle.bt_transfer.specs.Hearing.{IsHeard};

use bt_check::Fault;
use bt_devices::Alarm;

/// Something that rings where a device refuses a write.
pub(crate) trait Bell {
    /// It told so whether it ever rang.
    ghost tells: { Self → Bool → Type 0 };

    /// Whether it ever rang.
    fn has_rung(&self) -> bool
        ensures { tells self.now result };
}

// What lies in its cell no clause knows.
impl Bell for Alarm {
    ghost tells = { λ _ _. ⊤ };

    fn has_rung(&self) -> bool {
        Alarm::has_rung(self)
    }
}

/// Ends a command by what its bell tells; `is_complete` says whether all files are complete. Errors: `Device` where
/// the bell ever rang and not all files are complete.
pub(crate) fn hear<B: Bell>(bell: &B, is_complete: bool) -> Result<(), Fault>
    ensures heard { OnOk result (IsHeard (B.tells bell.now) is_complete) }
    ensures fault { IfErr result
        (λ fault. (fault ≡ device) × B.tells bell.now true × (is_complete ≡ false)) }
{
    if bell.has_rung() && !is_complete {
        return Err(Fault::Device);
    }
    Ok(())
}
