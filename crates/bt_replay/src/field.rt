//! Parts of a text, and what the fields of a line spell.
ghost use Rattle.std.specs.Prelude.{◌≡◌, ◌==◌, ℕ, ◌^◌, ◌∷◌, List, position, IfOk, IfSome, IfNone, OnErr};
ghost use Rattle.std.specs.List.{list_all};
ghost use Rattle.std.specs.Option.{option_copied};
ghost use Rattle.hex.specs.Hex.{is_hex_digit};
ghost use Rattle.bt_replay.specs.Field.{IsHex, IsNumber, more_parts, parts_of};

use hex::FromHexError;
use std::alloc::{AllocError, Global};
use std::str;

/// The first part of a text that is parted by each byte of this kind, and what stands after it: None where
/// the text has no such byte.
pub(crate) fn cut(text: &[u8], mark: u8) -> (&[u8], Option<&[u8]>)
    ensures { parts_of mark text.now ≡ result.0.now ∷ more_parts mark (option_copied result.1) }
{
    match first_place(text, mark) {
        Some(end) => (&text[..end], Some(&text[end + 1..])),
        None => (text, None),
    }
}

/// Where the first byte of this kind stands.
fn first_place(text: &[u8], mark: u8) -> Option<usize>
    ensures { result ≡ position (λ byte. byte == mark) text.now }
{
    text.iter().position(|byte| *byte == mark)
}

/// The number that a field spells, where it is one.
pub(crate) fn number_in(field: &[u8]) -> Option<u64>
    ensures some { IfSome result (IsNumber (2 ^ 64) field.now) }
    ensures none { IfNone result ((n : ℕ) → ¬ IsNumber (2 ^ 64) field.now n) }
{
    match str::from_utf8(field) {
        Ok(text) => unsigned(text),
        Err(_) => None,
    }
}

/// The number that a text spells, where it is one: digits alone.
fn unsigned(text: &str) -> Option<u64>
    ensures some { IfSome result (IsNumber (2 ^ 64) text.now) }
    ensures none { IfNone result ((n : ℕ) → ¬ IsNumber (2 ^ 64) text.now n) }
{
    if text.starts_with('+') {
        return None;
    }
    text.parse::<u64>().ok()
}

/// The number that a field spells, where it is one of 32 bits.
pub(crate) fn small_number_in(field: &[u8]) -> Option<u32>
    ensures some { IfSome result (IsNumber (2 ^ 32) field.now) }
    ensures none { IfNone result ((n : ℕ) → ¬ IsNumber (2 ^ 32) field.now n) }
{
    let number = number_in(field)?;
    if number > u32::MAX as u64 {
        return None;
    }
    Some(number as u32)
}

/// The bytes that a field spells in hexadecimal, where it does. Errors: out of memory, where it does.
pub(crate) fn bytes_in(alloc: Global, field: &[u8]) -> Result<Option<Vec<u8>>, AllocError>
    ensures some { IfOk result (λ found. IfSome found (λ bytes. IsHex field.now bytes.items)) }
    ensures none { IfOk result
        (λ found. IfNone found ((bytes : List ℕ) → ¬ IsHex field.now bytes)) }
    ensures memory { OnErr result ((bytes : List ℕ) × IsHex field.now bytes) }
{
    // `decode` asks for memory before it reads the digits.
    if field.is_empty() || !are_digits(field) {
        return Ok(None);
    }
    match hex::decode(alloc, field) {
        Ok(bytes) => Ok(Some(bytes)),
        Err(FromHexError::OutOfMemory) => Err(AllocError),
        Err(_) => Ok(None),
    }
}

fn are_digits(field: &[u8]) -> bool
    ensures { result ≡ list_all is_hex_digit field.now }
{
    field.iter().all(|digit| digit.is_ascii_hexdigit())
}
