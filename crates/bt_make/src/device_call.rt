//! Calls that take no memory, so that they fail by their device alone.
ghost use Rattle.std.specs.Prelude.{◌≡◌, IfErr};
ghost use Rattle.bt_check.specs.Fault.{device};

use bt_check::Fault;
use std::io;

/// The outcome of such a call, whose error is a device fault.
pub fn of_device<T>(outcome: io::Result<T>) -> Result<T, Fault>
    ensures { IfErr result (λ fault. fault ≡ device) }
{
    match outcome {
        Ok(value) => Ok(value),
        Err(_) => Err(Fault::Device),
    }
}
