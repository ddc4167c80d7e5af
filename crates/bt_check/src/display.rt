//! How names and paths are printed.
ghost use Rattle.std.specs.Prelude.{◌≡◌, IfOk, string_bytes};
ghost use Rattle.std.specs.List.{list_all};
ghost use Rattle.bt_check.specs.Display.{display_text, hex_text, is_readable, is_visible};
ghost use Rattle.bt_check.specs.Paths.{path_text};

use crate::paths::joined_path;
use bt_meta::FilePath;
use std::alloc::{AllocError, Global};
use std::str;

/// A name or a path as it is printed: as it is where it is text without control characters that does not
/// begin with `0x`, and else as `0x` and its bytes in hexadecimal.
pub fn display_name(alloc: Global, name: &[u8]) -> Result<String, AllocError>
    ensures { IfOk result (λ text. string_bytes text ≡ display_text name.now) }
{
    match str::from_utf8(name) {
        Ok(text) if is_readable_text(name) => String::from_str(alloc, text),
        _ => hexadecimal(alloc, name),
    }
}

/// The path of a file, its elements joined by `/`, as it is printed.
pub fn display_path(alloc: Global, path: &FilePath) -> Result<String, AllocError>
    ensures { IfOk result
        (λ text. string_bytes text ≡ display_text (path_text path.now)) }
{
    let path = joined_path(alloc, path)?;
    display_name(alloc, path.as_bytes())
}

/// `0x` and the bytes in hexadecimal.
fn hexadecimal(alloc: Global, name: &[u8]) -> Result<String, AllocError>
    ensures { IfOk result (λ text. string_bytes text ≡ hex_text name.now) }
{
    let digits = hex::encode(alloc, name)?;
    let mut text = String::from_str(alloc, "0x")?;
    text.push_str(digits.as_str())?;
    Ok(text)
}

/// Whether a text is printed as it is, by its bytes.
fn is_readable_text(text: &[u8]) -> bool
    ensures { result ≡ is_readable text.now }
{
    has_no_control(text) && !text.starts_with(b"0x")
}

/// Whether a text has no control character, by its bytes.
fn has_no_control(text: &[u8]) -> bool
    ensures { result ≡ list_all is_visible text.now }
{
    text.iter().all(|byte| *byte >= 0x20 && *byte != 0x7f)
}
