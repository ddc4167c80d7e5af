//! Lines that are told in words of their own.
ghost use Rattle.std.specs.Prelude.{◌≡◌, IfOk, string_bytes};
ghost use Rattle.bt_progress.specs.Hint.{hint_text};

use crate::escape::escaped;
use std::alloc::{AllocError, Global};

/// The line of a hint, or of what else is told, whose words are escaped, as names may be among them.
pub fn hint_line(alloc: Global, hint: &str) -> Result<String, AllocError>
    ensures { IfOk result (λ line. string_bytes line ≡ hint_text hint.now) }
{
    let hint = escaped(alloc, hint)?;
    format!(in alloc; "btseed: {hint}\n")
}
