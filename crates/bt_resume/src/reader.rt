//! How hints are read.
ghost use Rattle.std.specs.Prelude.{◌≡◌, ◌≢◌, ◌≤◌, ◌%◌, List, ◌∷◌, [], length, take, All, IfSome, IfNone};
ghost use Rattle.std.specs.Bool.{OnTrue, OnFalse};
ghost use Rattle.bt_tree.specs.Limits.{digest_length};
ghost use Rattle.bt_resume.specs.Hint.{proof_kind, joined, BeginsNoHint};
ghost use Rattle.bt_resume.specs.LogText.{LogText, hints_in, format_of};
ghost use Rattle.bt_resume.specs.declared.hint.Hint.{Hint};
ghost use Rattle.bt_resume.specs.LentHint.{hint_of};
ghost use Rattle.bt_resume.specs.Reader.{IsFirst, AreFirst, IsTaken, IsRenewed, IsBehindRenewal};

use crate::hint::{Format, LentHint, is_run};
use crate::writer::{MARK, MARK_LEN, PROOF, PROOF_FRONT_LEN, RENEWING, RUN, RUN_LEN};
use bt_hashreq::{digest_count, number_at, whole_key};
use bt_tree::Hash32;

/// Bytes of a log, and the format in which they begin.
#[derive(Clone, Copy)]
pub(crate) struct LogPart<'a> {
    pub(crate) bytes: &'a [u8],
    pub(crate) format: Format,
}

/// A hint that was read, and how many bytes spell it.
#[derive(Clone, Copy)]
pub(crate) struct FoundHint<'a> {
    pub(crate) hint: LentHint<'a>,
    pub(crate) len: usize,
}

/// How many hints were read, how many bytes spell them, and in which format the log goes on after them.
#[derive(Clone, Copy)]
pub(crate) struct FoundHints {
    pub(crate) count: usize,
    pub(crate) len: usize,
    pub(crate) format: Format,
}

/// What is read at the front of the bytes, where the log is in a format: the hints of this format, as many as
/// there are, and in format 1, where the byte stands after which it goes on in format 2, those after it.
pub(crate) fn measure_text(bytes: &[u8], format: Format) -> FoundHints
    ensures text { (text : LogText) × IsTaken format bytes.now text result.len
        × (result.count ≡ length (hints_in text)) × (result.format ≡ format_of text) }
    ensures within { result.len ≤ length bytes.now }
{
    let olds = measure_hints(bytes, format);
    let behind = &bytes[olds.len..];
    if !is_renewed(behind, format) {
        return olds;
    }
    let news = measure_hints(&behind[1..], Format::Two);
    FoundHints {
        count: olds.count + news.count,
        len: olds.len + 1 + news.len,
        format: Format::Two,
    }
}

/// The hints of a format that begin the bytes, as many as there are.
fn measure_hints(bytes: &[u8], format: Format) -> FoundHints
    ensures hints { (taken : List Hint) × AreFirst format bytes.now taken result.len
        × (result.count ≡ length taken) }
    ensures format { result.format ≡ format }
    ensures within { result.len ≤ length bytes.now }
    ensures few { result.count ≤ result.len }
{
    let mut count = 0;
    let mut len = 0;
    while let Some(found) = read_hint(&bytes[len..], format) {
        len += found.len;
        count += 1;
    }
    FoundHints { count, len, format }
}

/// The bytes after the byte that may stand here, after which a log of format 1 goes on in format 2.
pub(crate) fn behind_renewal(bytes: &[u8], format: Format) -> LogPart<'_>
    ensures { IsBehindRenewal format bytes.now result.format result.bytes.now }
{
    if is_renewed(bytes, format) {
        return LogPart {
            bytes: &bytes[1..],
            format: Format::Two,
        };
    }
    LogPart { bytes, format }
}

/// Whether the byte stands here, after which a log of format 1 goes on in format 2.
fn is_renewed(bytes: &[u8], format: Format) -> bool
    ensures yes { OnTrue result (IsRenewed format bytes.now) }
    ensures no { OnFalse result (¬ IsRenewed format bytes.now) }
{
    match format {
        Format::One => !bytes.is_empty() && bytes[0] == RENEWING,
        Format::Two => false,
    }
}

/// The hint of a format that begins the bytes, where one does.
pub(crate) fn read_hint(bytes: &[u8], format: Format) -> Option<FoundHint<'_>>
    ensures found { IfSome result (λ found. IsFirst format bytes.now
        (hint_of found.hint) found.len) }
    ensures none { IfNone result (BeginsNoHint format bytes.now) }
{
    if *bytes.first()? == PROOF {
        return read_proof(bytes, format);
    }
    match format {
        Format::One => read_mark(bytes),
        Format::Two => read_run(bytes),
    }
}

/// The proof that begins the bytes, where one does. They begin with the byte of one.
fn read_proof(bytes: &[u8], format: Format) -> Option<FoundHint<'_>>
    requires { take 1 bytes.now ≡ proof_kind ∷ [] }
    ensures found { IfSome result (λ found. IsFirst format bytes.now
        (hint_of found.hint) found.len) }
    ensures none { IfNone result (BeginsNoHint format bytes.now) }
{
    if bytes.len() < PROOF_FRONT_LEN {
        return None;
    }
    let key = whole_key(&bytes[1..PROOF_FRONT_LEN]);
    let count = digest_count(&key)?;
    let len = PROOF_FRONT_LEN + 32 * count as usize;
    if bytes.len() < len {
        return None;
    }
    let digests = whole_digests(&bytes[PROOF_FRONT_LEN..len]);
    Some(FoundHint {
        hint: LentHint::Proof(key, digests),
        len,
    })
}

/// The digests that lie one after the other.
fn whole_digests(bytes: &[u8]) -> &[Hash32]
    requires { length bytes.now % digest_length ≡ 0 }
    ensures joined { joined result.now ≡ bytes.now }
    ensures whole { All (λ digest. length digest ≡ digest_length) result.now }
{
    let (digests, _) = bytes.as_chunks::<32>();
    digests
}

/// The mark of format 1 that begins the bytes, where one does. They begin with no proof.
fn read_mark(bytes: &[u8]) -> Option<FoundHint<'_>>
    requires { take 1 bytes.now ≢ proof_kind ∷ [] }
    ensures found { IfSome result (λ found. IsFirst Format.One bytes.now
        (hint_of found.hint) found.len) }
    ensures none { IfNone result (BeginsNoHint Format.One bytes.now) }
{
    if bytes.len() < MARK_LEN || bytes[0] != MARK {
        return None;
    }
    Some(FoundHint {
        hint: LentHint::Marks {
            file: number_at(bytes, 1),
            first: number_at(bytes, 5),
            count: 1,
        },
        len: MARK_LEN,
    })
}

/// The run of marks of format 2 that begins the bytes, where one does. They begin with no proof.
fn read_run(bytes: &[u8]) -> Option<FoundHint<'_>>
    requires { take 1 bytes.now ≢ proof_kind ∷ [] }
    ensures found { IfSome result (λ found. IsFirst Format.Two bytes.now
        (hint_of found.hint) found.len) }
    ensures none { IfNone result (BeginsNoHint Format.Two bytes.now) }
{
    if bytes.len() < RUN_LEN || bytes[0] != RUN {
        return None;
    }
    let first = number_at(bytes, 5);
    let count = number_at(bytes, 9);
    if !is_run(first, count) {
        return None;
    }
    Some(FoundHint {
        hint: LentHint::Marks {
            file: number_at(bytes, 1),
            first,
            count,
        },
        len: RUN_LEN,
    })
}
