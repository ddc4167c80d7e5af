//! Faults that are told of: which call failed, and of what.
ghost use Rattle.std.specs.Prelude.{◌≡◌, ◌↔◌, IfOk, IfSome, IsErrAnd, IsTrue, string_bytes};
ghost use Rattle.bt_check.specs.Display.{display_text};
ghost use Rattle.bt_check.specs.Fault.{device};

use crate::display::display_name;
use crate::fault::Fault;
use bt_progress::{FileCall, Watch};
use std::alloc::{AllocError, Global};

/// The name by which a call on a path is told of where it fails, as the path is printed: none where no such call
/// is told of.
pub fn fault_name<P: Watch>(
    alloc: Global,
    watch: &P,
    path: &str,
) -> Result<Option<String>, AllocError>
    ensures { IfOk result (λ name. IfSome name (λ name. string_bytes name
        ≡ display_text path.now)) }
{
    if !watch.is_verbose() {
        return Ok(None);
    }
    Ok(Some(display_name(alloc, path.as_bytes())?))
}

/// The outcome of a call on a path, which is told of where a device failed.
pub fn told<T, P: Watch>(
    alloc: Global,
    watch: &P,
    call: FileCall,
    path: &str,
    outcome: Result<T, Fault>,
) -> Result<T, Fault>
    ensures { result ≡ outcome }
{
    if is_device_fault(&outcome) {
        tell(alloc, watch, call, path);
    }
    outcome
}

/// Whether a device failed.
pub fn is_device_fault<T>(outcome: &Result<T, Fault>) -> bool
    ensures { IsTrue result ↔ IsErrAnd outcome.now (λ fault. fault ≡ device) }
{
    match outcome {
        Ok(_) => false,
        Err(fault) => *fault == Fault::Device,
    }
}

/// Tells of a call on a path that failed. Where memory is short, nothing is told.
fn tell<P: Watch>(alloc: Global, watch: &P, call: FileCall, path: &str) {
    if let Ok(Some(name)) = fault_name(alloc, watch, path) {
        watch.tell_fault(call, name.as_str());
    }
}
