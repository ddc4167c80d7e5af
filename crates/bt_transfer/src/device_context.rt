//! What the devices of a store share with the connections to its engine.
ghost use Rattle.std.specs.Prelude.{◌≡◌};

use bt_devices::Seal;
use bt_files::{DeviceContext, FileUse};
use bt_sockets::Shared;

/// What the devices of a store have of what they share with the connections. Their files are opened for `usage`.
/// Nobody closes `log_seal`, the seal of the log.
pub(crate) fn device_context<'a>(
    usage: FileUse,
    shared: &'a Shared,
    seal: &'a Seal,
    log_seal: &'a Seal,
) -> DeviceContext<'a>
    ensures { result.usage ≡ usage }
{
    DeviceContext {
        usage,
        digests: &shared.digests,
        alarm: &shared.alarm,
        seal,
        log_seal,
    }
}
