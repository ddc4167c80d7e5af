//! Reading canonical bencoding from the left.
ghost use Rattle.std.specs.Prelude.{ℕ, ◌≡◌, ◌≢◌, ◌<◌, ◌≤◌, ◌↔◌, [], ◌∷◌, ◌++◌, length, slice_index};
ghost use Rattle.std.specs.Prelude.{IsTrue, IfOk, IfErr, OnOk};
ghost use Rattle.bt_bencode.specs.Letters.{letter_i, letter_l, letter_d};
ghost use Rattle.bt_bencode.specs.Value.{data_of, entries_of};
ghost use Rattle.bt_bencode.specs.Spelling.{spelling_of};
ghost use Rattle.bt_bencode.specs.Doc.{IsCanonical};
ghost use Rattle.bt_bencode.specs.Error.{AtFault, truncated, trailing};
ghost use Rattle.bt_bencode.specs.Reader.{EndsBefore, StringStops, Stops};
ghost use Rattle.bt_bencode.specs.Reader.{IsFirstFault, NoneSpells, IsValueEnd};
ghost use Rattle.bt_bencode.specs.ReaderSteps.{FaultFrom, ReadsString, ReadsInteger, ReadsValue};
ghost use Rattle.bt_bencode.specs.declared.error.BencodeError.TheVariants.{OutOfMemory};

use crate::doc::Doc;
use crate::error::BencodeError;
use crate::number::{integer_of, length_of, numeral_end};
use crate::value::Value;
use std::alloc::{AllocError, Global};

/// How many lists and dictionaries may lie in one another: this project's own limit, BEP 3 sets none.
pub const MAX_NESTING: usize = 128;

/// The value that the bytes spell, all of them.
///
/// An error is the first fault from the left, with its offset; the bytes are read once, and memory
/// grows with the value alone. Errors: all of [`BencodeError`].
#[tactic(auto, using(crate::proofs::Steps::parse_steps))]
pub fn parse(alloc: Global, bytes: &[u8]) -> Result<Doc, BencodeError>
    ensures canonical { IfOk result (λ doc. IsCanonical (data_of doc)) }
    ensures spelled { IfOk result (λ doc. spelling_of (data_of doc) ≡ bytes.now) }
    ensures first_fault { IfErr result (AtFault (IsFirstFault bytes.now)) }

    // Out of memory aside, an error comes only where no canonical value spells the bytes.
    ensures none_spells { IfErr result (AtFault (λ _ _. NoneSpells bytes.now)) }
    ensures truncated_at_end { IfErr result
        (AtFault (λ f at. f ≡ truncated → at ≡ length bytes.now)) }
    ensures trailing_behind_value { IfErr result
        (AtFault (λ f at. f ≡ trailing → IsValueEnd bytes.now at)) }
{
    let length = bytes.len();
    let (value, end) = value_at(alloc, bytes, 0, MAX_NESTING)?;
    if end < length {
        return Err(BencodeError::Trailing(end));
    }
    Ok(Doc::new(value))
}

/// The value that begins at `at`, of nesting at most `depth`, and where it ends.
#[cycle(value)]
fn value_at(
    alloc: Global,
    bytes: &[u8],
    at: usize,
    depth: usize,
) -> Result<(Value, usize), BencodeError>
    requires { at ≤ length bytes.now }
    ensures found { IfOk result (λ x. ReadsValue depth bytes.now at x.1 (data_of x.0)) }
    ensures fault { IfErr result (AtFault (FaultFrom (Stops depth) bytes.now at)) }
{
    if at == bytes.len() {
        return Err(BencodeError::Truncated(at));
    }
    let first = bytes[at];
    match first {
        b'i' => {
            let (integer, end) = integer_at(bytes, at)?;
            Ok((Value::Int(integer), end))
        }
        b'l' => list_at(alloc, bytes, at, depth),
        b'd' => dictionary_at(alloc, bytes, at, depth),
        _ if first.is_ascii_digit() => {
            let (string, end) = string_at(alloc, bytes, at)?;
            Ok((Value::Bytes(string), end))
        }
        _ => Err(BencodeError::BadByte(at)),
    }
}

/// The list whose `l` is at `at`, and where it ends.
#[tactic(auto, using(crate::proofs::Steps::list_at_steps))]
#[cycle(value)]
fn list_at(
    alloc: Global,
    bytes: &[u8],
    at: usize,
    depth: usize,
) -> Result<(Value, usize), BencodeError>
    requires inside { at < length bytes.now }
    requires first { slice_index bytes.now at ≡ letter_l }
    ensures found { IfOk result (λ x. ReadsValue depth bytes.now at x.1 (data_of x.0)) }
    ensures fault { IfErr result (AtFault (FaultFrom (Stops depth) bytes.now at)) }
{
    if depth == 0 {
        return Err(BencodeError::TooDeep(at));
    }
    let mut items = Vec::new(alloc);
    let mut next = at + 1;
    while !stands_at(bytes, next, b'e') {
        let (item, end) = value_at(alloc, bytes, next, depth - 1)?;
        push_part(&mut items, item)?;
        next = end;
    }
    items.shrink_to_fit();
    Ok((Value::List(items), next + 1))
}

/// The dictionary whose `d` is at `at`, and where it ends.
#[tactic(auto, using(crate::proofs::Steps::dictionary_at_steps))]
#[cycle(value)]
fn dictionary_at(
    alloc: Global,
    bytes: &[u8],
    at: usize,
    depth: usize,
) -> Result<(Value, usize), BencodeError>
    requires inside { at < length bytes.now }
    requires first { slice_index bytes.now at ≡ letter_d }
    ensures found { IfOk result (λ x. ReadsValue depth bytes.now at x.1 (data_of x.0)) }
    ensures fault { IfErr result (AtFault (FaultFrom (Stops depth) bytes.now at)) }
{
    if depth == 0 {
        return Err(BencodeError::TooDeep(at));
    }
    let mut entries: Vec<(Vec<u8>, Value)> = Vec::new(alloc);
    let mut next = at + 1;
    while !stands_at(bytes, next, b'e') {
        let (key, colon) = string_at(alloc, bytes, next)?;
        if !may_follow(&entries, &key) {
            return Err(BencodeError::KeyOrder(next));
        }
        let (value, end) = value_at(alloc, bytes, colon, depth - 1)?;
        push_part(&mut entries, (key, value))?;
        next = end;
    }
    entries.shrink_to_fit();
    Ok((Value::Dict(entries), next + 1))
}

/// Puts the part after the others. Where they fill their room, it grows by a quarter, and not to its
/// double: an item has 32 bytes where its text may have two.
fn push_part<T: Drop>(parts: &mut Vec<T>, part: T) -> Result<(), AllocError>
    ensures { OnOk result (parts.new.items ≡ parts.old.items ++ part ∷ []) }
{
    let count = parts.len();
    if count == parts.capacity() {
        parts.reserve_exact(count / 4 + 1)?;
    }
    parts.push(part)?;
    Ok(())
}

/// Whether the key stands after the last one of the entries.
#[tactic(auto, using(crate::proofs::Steps::may_follow_steps))]
fn may_follow(entries: &[(Vec<u8>, Value)], key: &[u8]) -> bool
    ensures { IsTrue result ↔ EndsBefore (entries_of entries.now) key.now }
{
    match entries {
        [.., (last, _)] => last.as_slice().cmp(key).is_lt(),
        [] => true,
    }
}

/// Whether this byte stands at `at`.
fn stands_at(bytes: &[u8], at: usize, byte: u8) -> bool
    ensures { IsTrue result ↔ ((at < length bytes.now) × (slice_index bytes.now at ≡ byte)) }
{
    at < bytes.len() && bytes[at] == byte
}

/// The integer whose `i` is at `at`, and where it ends.
fn integer_at(bytes: &[u8], at: usize) -> Result<(i64, usize), BencodeError>
    requires inside { at < length bytes.now }
    requires first { slice_index bytes.now at ≡ letter_i }
    ensures found { IfOk result (λ x. ReadsInteger bytes.now at x.1 x.0) }
    ensures fault { (n : ℕ) → IfErr result (AtFault (FaultFrom (Stops n) bytes.now at)) }
    ensures memory { IfErr result (λ e. e ≢ OutOfMemory) }
{
    let negative = stands_at(bytes, at + 1, b'-');
    let digits = at + 1 + usize::from(negative);
    let end = numeral_end(bytes, digits, negative, b'e')?;
    match integer_of(&bytes[at + 1..end]) {
        Some(integer) => Ok((integer, end + 1)),
        None => Err(BencodeError::IntRange(at + 1)),
    }
}

/// The string that begins at `at`, and where it ends.
fn string_at(alloc: Global, bytes: &[u8], at: usize) -> Result<(Vec<u8>, usize), BencodeError>
    requires { at ≤ length bytes.now }
    ensures found { IfOk result (λ x. ReadsString bytes.now at x.1 x.0.items) }
    ensures fault { IfErr result (AtFault (FaultFrom StringStops bytes.now at)) }
{
    let colon = numeral_end(bytes, at, false, b':')?;
    let start = colon + 1;
    let left = bytes.len() - start;
    match length_of(&bytes[at..colon]) {
        Some(length) if length <= left => {
            let end = start + length;
            let string = Vec::from_slice(alloc, &bytes[start..end])?;
            Ok((string, end))
        }
        _ => Err(BencodeError::Truncated(bytes.len())),
    }
}
