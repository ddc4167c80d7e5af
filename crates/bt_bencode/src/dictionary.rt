//! The look-up of a key in a dictionary: its first entry's value, or the part of the text that spells it.
ghost use Rattle.std.specs.Prelude.{◌≡◌, option_copied};
ghost use Rattle.std.specs.Option.{option_map};
ghost use Rattle.bt_bencode.specs.Value.{data_of};
ghost use Rattle.bt_bencode.specs.Spelling.{spelling_of};
ghost use Rattle.bt_bencode.specs.Dictionary.{field_of};

use crate::ends::{string_end, value_end};
use crate::value::Value;

/// The value of the first entry with this key; None where there is none, or where the value is no
/// dictionary.
#[tactic(auto, using(crate::proofs::Steps::field_steps))]
pub fn field<'a>(value: &'a Value, key: &[u8]) -> Option<&'a Value>
    ensures { option_map data_of (option_copied result) ≡ field_of (data_of value.now) key.now }
{
    let Value::Dict(entries) = value else {
        return None;
    };
    for (name, item) in entries {
        if name.as_slice() == key {
            return Some(item);
        }
    }
    None
}

/// The part of a value's spelling that spells what `field` gives: `text` is the spelling of all of `value`.
/// Nothing is spelled anew, and no memory is taken.
#[tactic(auto, using(crate::proofs::Steps::field_text_steps), unfolding(crate::specs::Spelling::spelling_of, crate::specs::Spelling::entries_spelling))]
pub fn field_text<'a>(text: &'a [u8], value: &Value, key: &[u8]) -> Option<&'a [u8]>
    requires { spelling_of (data_of value.now) ≡ text.now }
    ensures { option_copied result ≡ option_map spelling_of (field_of (data_of value.now) key.now) }
{
    let Value::Dict(entries) = value else {
        return None;
    };
    let mut at = 1;
    for (name, item) in entries {
        let start = string_end(at, name);
        let end = value_end(start, item);
        if name.as_slice() == key {
            return Some(&text[start..end]);
        }
        at = end;
    }
    None
}
