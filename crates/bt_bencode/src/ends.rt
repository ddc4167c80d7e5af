//! Where the spelling of a value ends, without spelling it.
ghost use Rattle.std.specs.Prelude.{◌≡◌, ◌+◌, ◌^◌, ◌<◌, length};
ghost use Rattle.std.specs.Fmt.{decimal, signed_decimal};
ghost use Rattle.bt_bencode.specs.Value.{data_of};
ghost use Rattle.bt_bencode.specs.Spelling.{spelling_of, string_spelling};

use crate::value::Value;

/// Where the spelling of a value ends that begins at `at`.
#[tactic(auto, using(crate::proofs::Steps::value_end_steps), unfolding(crate::specs::Spelling::spelling_of))]
pub(crate) fn value_end(at: usize, value: &Value) -> usize
    requires { at + length (spelling_of (data_of value.now)) < 2 ^ 64 }
    ensures { result ≡ at + length (spelling_of (data_of value.now)) }
{
    match value {
        Value::Int(integer) => at + integer_length(*integer) + 2,
        Value::Bytes(bytes) => string_end(at, bytes),
        Value::List(items) => {
            let mut end = at + 1;
            for item in items {
                end = value_end(end, item);
            }
            end + 1
        }
        Value::Dict(entries) => {
            let mut end = at + 1;
            for (key, item) in entries {
                end = string_end(end, key);
                end = value_end(end, item);
            }
            end + 1
        }
    }
}

/// Where the spelling of a string ends that begins at `at`.
#[tactic(auto, using(crate::proofs::Steps::end_steps))]
pub(crate) fn string_end(at: usize, string: &[u8]) -> usize
    requires { at + length (string_spelling string.now) < 2 ^ 64 }
    ensures { result ≡ at + length (string_spelling string.now) }
{
    at + digit_count(string.len() as u64) + 1 + string.len()
}

/// How many digits an integer has in base ten, and a minus before those of a negative one.
#[tactic(auto, using(crate::proofs::Steps::end_steps))]
fn integer_length(integer: i64) -> usize
    ensures { result ≡ length (signed_decimal integer) }
{
    let digits = digit_count(integer.unsigned_abs());
    if integer < 0 { digits + 1 } else { digits }
}

/// How many digits a number has in base ten.
#[tactic(auto, using(crate::proofs::Steps::end_steps))]
fn digit_count(number: u64) -> usize
    ensures { result ≡ length (decimal number) }
{
    if number < 10 {
        return 1;
    }
    digit_count(number / 10) + 1
}
