//! What a dictionary holds at a key, by kind.
ghost use Rattle.std.specs.Prelude.{◌≡◌, option_copied};
ghost use Rattle.std.specs.Option.{option_map};
ghost use Rattle.bt_bencode.specs.Value.{data_of, entries_of};
ghost use Rattle.bt_meta.specs.Fields.{as_integer as integer_in, as_string as string_in, as_dictionary as dictionary_in, integer_at, natural_at, string_at, dictionary_at, has_key, entries_in, is_dictionary as is_dictionary_data, is_single as is_single_data};

use bt_bencode::{Value, field};

/// The integer at the key.
#[tactic(auto, unfolding(crate::specs::Fields::integer_at))]
pub(crate) fn integer(value: &Value, key: &[u8]) -> Option<i64>
    ensures { result ≡ integer_at (data_of value.now) key.now }
{
    as_integer(field(value, key)?)
}

/// The integer at the key, if it is not negative.
pub(crate) fn natural(value: &Value, key: &[u8]) -> Option<u64>
    ensures { result ≡ natural_at (data_of value.now) key.now }
{
    u64::try_from(integer(value, key)?).ok()
}

/// The string at the key.
#[tactic(auto, unfolding(crate::specs::Fields::string_at))]
pub(crate) fn string<'a>(value: &'a Value, key: &[u8]) -> Option<&'a [u8]>
    ensures { option_copied result ≡ string_at (data_of value.now) key.now }
{
    as_string(field(value, key)?)
}

/// The value at the key, which is a dictionary.
#[tactic(auto, unfolding(crate::specs::Fields::dictionary_at))]
pub(crate) fn dictionary<'a>(value: &'a Value, key: &[u8]) -> Option<&'a Value>
    ensures { option_map data_of (option_copied result) ≡ dictionary_at
        (data_of value.now) key.now }
{
    as_dictionary(field(value, key)?)
}

/// Whether the dictionary has the key.
#[tactic(auto, unfolding(crate::specs::Fields::has_key))]
pub(crate) fn has(value: &Value, key: &[u8]) -> bool
    ensures { result ≡ has_key (data_of value.now) key.now }
{
    field(value, key).is_some()
}

/// Whether the value is a dictionary.
pub(crate) fn is_dictionary(value: &Value) -> bool
    ensures { result ≡ is_dictionary_data (data_of value.now) }
{
    matches!(value, Value::Dict(_))
}

/// Whether the value is a dictionary of one entry.
#[tactic(auto, using(crate::proofs::Steps::is_single_steps))]
pub(crate) fn is_single(value: &Value) -> bool
    ensures { result ≡ is_single_data (data_of value.now) }
{
    match value {
        Value::Dict(entries) => entries.as_slice().len() == 1,
        Value::Int(_) | Value::Bytes(_) | Value::List(_) => false,
    }
}

/// The entries of a dictionary; none of another value.
pub(crate) fn entries(value: &Value) -> &[(Vec<u8>, Value)]
    ensures { entries_of result.now ≡ entries_in (data_of value.now) }
{
    match value {
        Value::Dict(entries) => entries.as_slice(),
        Value::Int(_) | Value::Bytes(_) | Value::List(_) => &[],
    }
}

fn as_integer(value: &Value) -> Option<i64>
    ensures { result ≡ integer_in (data_of value.now) }
{
    match value {
        Value::Int(integer) => Some(*integer),
        Value::Bytes(_) | Value::List(_) | Value::Dict(_) => None,
    }
}

pub(crate) fn as_string(value: &Value) -> Option<&[u8]>
    ensures { option_copied result ≡ string_in (data_of value.now) }
{
    match value {
        Value::Bytes(string) => Some(string.as_slice()),
        Value::Int(_) | Value::List(_) | Value::Dict(_) => None,
    }
}

fn as_dictionary(value: &Value) -> Option<&Value>
    ensures { option_map data_of (option_copied result) ≡ dictionary_in (data_of value.now) }
{
    match value {
        Value::Dict(_) => Some(value),
        Value::Int(_) | Value::Bytes(_) | Value::List(_) => None,
    }
}
