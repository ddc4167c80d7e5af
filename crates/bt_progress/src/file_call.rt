//! Calls on files, as they are named to users.
ghost use Rattle.std.specs.Prelude.{◌≡◌, IfOk, string_bytes};
ghost use Rattle.bt_progress.specs.FileCall.{call_text, fault_text, reason_of};

use crate::escape::escaped;
use std::alloc::{AllocError, Global};

/// A call on a file or a folder.
#[derive(Clone, Copy, Debug, PartialEq, Eq)]
pub enum FileCall {
    /// What lies at a path is looked at.
    Look,
    /// A folder's names are listed.
    List,
    Open,
    Create,
    /// A file is asked for its length.
    Length,
    Read,
    Write,
    /// A file's length is changed.
    Resize,
    Sync,
    Rename,
}

/// What could not be done, where a call failed.
fn call_text(call: FileCall) -> &'static str
    ensures { result.now ≡ call_text call }
{
    match call {
        FileCall::Look => "look at",
        FileCall::List => "list",
        FileCall::Open => "open",
        FileCall::Create => "create",
        FileCall::Length => "measure",
        FileCall::Read => "read",
        FileCall::Write => "write",
        FileCall::Resize => "resize",
        FileCall::Sync => "sync",
        FileCall::Rename => "replace",
    }
}

/// The line that tells of a call that failed, of what has this name, which is escaped, and why, where that is known.
pub fn fault_line(
    alloc: Global,
    call: FileCall,
    name: &str,
    reason: Option<&str>,
) -> Result<String, AllocError>
    ensures { IfOk result
        (λ line. string_bytes line ≡ fault_text call name.now (reason_of reason.entry)) }
{
    let name = escaped(alloc, name)?;
    let call = call_text(call);
    match reason {
        Some(reason) => format!(in alloc; "btseed: cannot {call} {name}: {reason}\n"),
        None => format!(in alloc; "btseed: cannot {call} {name}\n"),
    }
}
