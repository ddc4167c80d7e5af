//! The fields of a line, which are parted by one space, and what they spell.
ghost use Rattle.std.specs.Prelude.{[], ◌≡◌, ◌≢◌, ◌==◌, ◌∷◌, ℕ, List, position, IfSome, IfNone};
ghost use Rattle.bt_parts.specs.Field.{IsNumber, fields_in, fields_of};

use std::str;

/// The first field of a text, and what stands after the space that ends it: None where the text has no space.
pub fn first_field(text: &[u8]) -> (&[u8], Option<&[u8]>)
    ensures { fields_of text.now ≡ result.0.now ∷ fields_in result.1 }
{
    match first_space(text) {
        Some(end) => (&text[..end], Some(&text[end + 1..])),
        None => (text, None),
    }
}

/// Where the first space stands.
fn first_space(text: &[u8]) -> Option<usize>
    ensures { result ≡ position (λ byte. byte == 32) text.now }
{
    text.iter().position(|byte| *byte == b' ')
}

/// The next field of what is left of a text, and what stands after it: None where nothing is left.
pub fn next_field(rest: Option<&[u8]>) -> Option<(&[u8], Option<&[u8]>)>
    ensures some { IfSome result (λ x. fields_in rest.entry ≡ x.0.now ∷ fields_in x.1) }
    ensures none { IfNone result (fields_in rest.entry ≡ []) }
{
    match rest {
        Some(text) => Some(first_field(text)),
        None => None,
    }
}

/// The field that is left of a text, where just one is left.
pub fn last_field(rest: Option<&[u8]>) -> Option<&[u8]>
    ensures some { IfSome result (λ field. fields_in rest.entry ≡ field.now ∷ []) }
    ensures none { IfNone result ((field : List ℕ) → fields_in rest.entry ≢ field ∷ []) }
{
    let (field, more) = next_field(rest)?;
    if more.is_some() {
        return None;
    }
    Some(field)
}

/// The number of 32 bits that a field spells, where it is one.
pub fn number_in(field: &[u8]) -> Option<u32>
    ensures some { IfSome result (IsNumber field.now) }
    ensures none { IfNone result ((n : ℕ) → ¬ IsNumber field.now n) }
{
    match str::from_utf8(field) {
        Ok(text) => unsigned(text),
        Err(_) => None,
    }
}

/// The number of 32 bits that a text spells, where it is one: digits alone.
fn unsigned(text: &str) -> Option<u32>
    ensures some { IfSome result (IsNumber text.now) }
    ensures none { IfNone result ((n : ℕ) → ¬ IsNumber text.now n) }
{
    if text.starts_with('+') {
        return None;
    }
    text.parse::<u32>().ok()
}
