//! Writing bencoding.
ghost use Rattle.std.specs.Prelude.{◌≡◌, ◌++◌, ◌∷◌, [], IfOk, OnOk};
ghost use Rattle.std.specs.Fmt.{signed_decimal};
ghost use Rattle.bt_bencode.specs.Letters.{letter_i, letter_e};
ghost use Rattle.bt_bencode.specs.Value.{data_of};
ghost use Rattle.bt_bencode.specs.Spelling.{spelling_of, string_spelling};

use crate::value::Value;
use std::alloc::{AllocError, Global};

/// The spelling of any value, of one that is not canonical too. The error is out of memory.
pub fn write(alloc: Global, value: &Value) -> Result<Vec<u8>, AllocError>
    ensures { IfOk result (λ bytes. bytes.items ≡ spelling_of (data_of value.now)) }
{
    let mut out = Vec::new(alloc);
    put_value(alloc, &mut out, value)?;
    Ok(out)
}

/// Puts the value's spelling at the end of `out`.
#[tactic(auto, using(crate::proofs::Steps::put_value_steps), unfolding(crate::specs::Spelling::spelling_of))]
fn put_value(alloc: Global, out: &mut Vec<u8>, value: &Value) -> Result<(), AllocError>
    ensures { OnOk result (out.new.items ≡ out.old.items ++ spelling_of (data_of value.now)) }
{
    match value {
        Value::Int(integer) => put_integer(alloc, out, *integer)?,
        Value::Bytes(bytes) => put_string(alloc, out, bytes)?,
        Value::List(items) => {
            out.push(b'l')?;
            for item in items {
                put_value(alloc, out, item)?;
            }
            out.push(b'e')?;
        }
        Value::Dict(entries) => {
            out.push(b'd')?;
            for (key, item) in entries {
                put_string(alloc, out, key)?;
                put_value(alloc, out, item)?;
            }
            out.push(b'e')?;
        }
    }
    Ok(())
}

/// Puts the integer's spelling at the end of `out`.
fn put_integer(alloc: Global, out: &mut Vec<u8>, integer: i64) -> Result<(), AllocError>
    ensures { OnOk result (out.new.items
        ≡ out.old.items ++ letter_i ∷ (signed_decimal integer ++ letter_e ∷ [])) }
{
    let digits = format!(in alloc; "i{integer}e")?;
    out.extend_from_slice(digits.as_bytes())
}

/// Puts the string's spelling at the end of `out`.
fn put_string(alloc: Global, out: &mut Vec<u8>, string: &[u8]) -> Result<(), AllocError>
    ensures { OnOk result (out.new.items ≡ out.old.items ++ string_spelling string.now) }
{
    let length = string.len();
    let head = format!(in alloc; "{length}:")?;
    out.extend_from_slice(head.as_bytes())?;
    out.extend_from_slice(string)
}
