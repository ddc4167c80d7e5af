//! The fields after a line's word. Each is None where they are not of its form.
ghost use Rattle.std.specs.Prelude.{[], ◌≡◌, ◌≢◌, ℕ, ◌∷◌, List, IfOk, IfSome, IfNone, OnErr};
ghost use Rattle.bt_book.specs.declared.names.PeerKey.{PeerKey as Key};
ghost use Rattle.bt_replay.specs.Field.{fields_in};
ghost use Rattle.bt_replay.specs.Line.{IsBytes, IsCall, IsFile, IsFileAndCall, IsFileCallAndPlace, IsPeer, IsPeerAndBytes};

use crate::field::{bytes_in, cut, number_in, small_number_in};
use bt_book::PeerKey;
use bt_wire::Bytes;
use std::alloc::{AllocError, Global};

/// A field, and what stands after it.
fn next_field(rest: Option<&[u8]>) -> Option<(&[u8], Option<&[u8]>)>
    ensures some { IfSome result (λ x. fields_in rest.entry
        ≡ x.0.now ∷ fields_in x.1) }
    ensures none { IfNone result (fields_in rest.entry ≡ []) }
{
    match rest {
        Some(text) => Some(cut(text, b' ')),
        None => None,
    }
}

/// One field.
fn only_field(rest: Option<&[u8]>) -> Option<&[u8]>
    ensures some { IfSome result (λ field. fields_in rest.entry ≡ field.now ∷ []) }
    ensures none { IfNone result ((field : List ℕ) → fields_in rest.entry ≢ field ∷ []) }
{
    let (field, more) = next_field(rest)?;
    if more.is_some() {
        return None;
    }
    Some(field)
}

/// A peer's key.
pub(crate) fn peer_in(rest: Option<&[u8]>) -> Option<PeerKey>
    ensures some { IfSome result (IsPeer (fields_in rest.entry)) }
    ensures none { IfNone result ((key : Key) → ¬ IsPeer (fields_in rest.entry) key) }
{
    let field = only_field(rest)?;
    let number = number_in(field)?;
    Some(PeerKey(number))
}

/// A file's number.
pub(crate) fn file_in(rest: Option<&[u8]>) -> Option<u32>
    ensures some { IfSome result (IsFile (fields_in rest.entry)) }
    ensures none { IfNone result ((file : ℕ) → ¬ IsFile (fields_in rest.entry) file) }
{
    let field = only_field(rest)?;
    small_number_in(field)
}

/// Bytes. Errors: out of memory, where they are of their form.
pub(crate) fn bytes_after(alloc: Global, rest: Option<&[u8]>) -> Result<Option<Bytes>, AllocError>
    ensures some { IfOk result (λ found. IfSome found (IsBytes (fields_in rest.entry))) }
    ensures none { IfOk result (λ found. IfNone found
        ((bytes : List ℕ) → ¬ IsBytes (fields_in rest.entry) bytes)) }
    ensures memory { OnErr result ((bytes : List ℕ) × IsBytes (fields_in rest.entry) bytes) }
{
    let Some(field) = only_field(rest) else {
        return Ok(None);
    };
    match bytes_in(alloc, field)? {
        Some(bytes) => Ok(Some(Bytes::new(bytes))),
        None => Ok(None),
    }
}

/// A peer's key, and bytes. Errors: out of memory, where they are of their form.
pub(crate) fn peer_and_bytes_in(
    alloc: Global,
    rest: Option<&[u8]>,
) -> Result<Option<(PeerKey, Bytes)>, AllocError>
    ensures some { IfOk result (λ found. IfSome found
        (λ x. IsPeerAndBytes (fields_in rest.entry) x.0 x.1)) }
    ensures none { IfOk result (λ found. IfNone found
        ((key : Key) (bytes : List ℕ) → ¬ IsPeerAndBytes (fields_in rest.entry) key bytes)) }
    ensures memory { OnErr result
        ((key : Key) × (bytes : List ℕ) × IsPeerAndBytes (fields_in rest.entry) key bytes) }
{
    let Some((field, rest)) = next_field(rest) else {
        return Ok(None);
    };
    let Some(number) = number_in(field) else {
        return Ok(None);
    };
    match bytes_after(alloc, rest)? {
        Some(bytes) => Ok(Some((PeerKey(number), bytes))),
        None => Ok(None),
    }
}

/// The number of a call that may be set to fail.
fn call_in(field: &[u8]) -> Option<u64>
    ensures some { IfSome result (IsCall field.now) }
    ensures none { IfNone result ((call : ℕ) → ¬ IsCall field.now call) }
{
    let number = number_in(field)?;
    if number == 0 || number == u64::MAX {
        return None;
    }
    Some(number)
}

/// A file's number and a call's.
pub(crate) fn file_and_call_in(rest: Option<&[u8]>) -> Option<(u32, u64)>
    ensures some { IfSome result (λ x. IsFileAndCall (fields_in rest.entry) x.0 x.1) }
    ensures none { IfNone result
        ((file call : ℕ) → ¬ IsFileAndCall (fields_in rest.entry) file call) }
{
    let (field, rest) = next_field(rest)?;
    let file = small_number_in(field)?;
    let field = only_field(rest)?;
    let call = call_in(field)?;
    Some((file, call))
}

/// A file's number, a call's, and the place of a byte.
pub(crate) fn file_call_and_place_in(rest: Option<&[u8]>) -> Option<(u32, u64, u64)>
    ensures some { IfSome result
        (λ x. IsFileCallAndPlace (fields_in rest.entry) x.0 x.1 x.2) }
    ensures none { IfNone result
        ((file call at : ℕ) → ¬ IsFileCallAndPlace (fields_in rest.entry) file call at) }
{
    let (field, rest) = next_field(rest)?;
    let file = small_number_in(field)?;
    let (field, rest) = next_field(rest)?;
    let call = call_in(field)?;
    let field = only_field(rest)?;
    let at = number_in(field)?;
    Some((file, call, at))
}
