//! How hints are written.
ghost use Rattle.std.specs.Prelude.{◌≡◌, ◌≤◌, ◌+◌, ◌*◌, ◌++◌, length, take};
ghost use Rattle.bt_resume.specs.Limits.{max_hint_length, run_length};
ghost use Rattle.bt_resume.specs.Hint.{hint_spelling, CanBeRead};
ghost use Rattle.bt_resume.specs.LogText.{appended_bytes};
ghost use Rattle.bt_resume.specs.declared.hint.Hint.{Hint};

use crate::hint::Format;
use bt_hashreq::{HashKey, MAX_DIGESTS, put, write_key};
use bt_sparse::Digests;

/// The first byte of a proof.
pub(crate) const PROOF: u8 = b'P';

/// The first byte of a mark, of format 1.
pub(crate) const MARK: u8 = b'M';

/// The first byte of a run of marks, of format 2.
pub(crate) const RUN: u8 = b'R';

/// The byte after which a log of format 1 goes on in format 2.
pub(crate) const RENEWING: u8 = b'2';

/// How many bytes of a proof stand in front of its digests.
pub(crate) const PROOF_FRONT_LEN: usize = 49;

/// How many bytes a mark has.
pub(crate) const MARK_LEN: usize = 9;

/// How many bytes a run of marks has.
pub(crate) const RUN_LEN: usize = 13;

/// How many bytes are appended at most for a proof of so many digests: the byte in front of it, and its own. Each
/// number but the last is half of the next, rounded up; the last is that of `MAX_DIGESTS`, of which 269 are half.
pub(crate) const ROOM_OF_5: usize = 1 + PROOF_FRONT_LEN + 32 * 5;

pub(crate) const ROOM_OF_9: usize = 1 + PROOF_FRONT_LEN + 32 * 9;

pub(crate) const ROOM_OF_17: usize = 1 + PROOF_FRONT_LEN + 32 * 17;

pub(crate) const ROOM_OF_34: usize = 1 + PROOF_FRONT_LEN + 32 * 34;

pub(crate) const ROOM_OF_68: usize = 1 + PROOF_FRONT_LEN + 32 * 68;

pub(crate) const ROOM_OF_135: usize = 1 + PROOF_FRONT_LEN + 32 * 135;

pub(crate) const ROOM_OF_269: usize = 1 + PROOF_FRONT_LEN + 32 * 269;

pub(crate) const MAX_PROOF_ROOM: usize = 1 + PROOF_FRONT_LEN + 32 * MAX_DIGESTS as usize;

/// No more bytes are appended for a run of marks.
pub(crate) const MAX_RUN_ROOM: usize = 1 + RUN_LEN;

/// Writes what is appended in front of a hint to the front of a buffer, and says how many bytes it is: in a log
/// that ends in format 1 the byte after which it goes on in format 2, and else nothing.
pub(crate) fn write_renewal<const N: usize>(format: Format, buffer: &mut [u8; N]) -> usize
    requires { 1 ≤ N }
    ensures within { result ≤ 1 }
    ensures spelled { (hint : Hint) → take result buffer.new ++ hint_spelling Format.Two hint
        ≡ appended_bytes format hint }
{
    match format {
        Format::One => {
            put(buffer, 0, &[RENEWING]);
            1
        }
        Format::Two => 0,
    }
}

/// Writes the bytes that spell a proof in format 2 to a buffer from byte `at` on, and says where they end.
pub(crate) fn write_proof<const N: usize>(
    key: &HashKey,
    digests: &Digests,
    at: usize,
    buffer: &mut [u8; N],
) -> usize
    requires readable { CanBeRead (Hint.Proof key.now digests.now) }
    requires front { at ≤ 1 }
    requires room { 50 + 32 * length digests.now ≤ N }
    ensures within { result ≤ at + max_hint_length }
    ensures inside { result ≤ N }
    ensures spelled { take result buffer.new
        ≡ take at buffer.old ++ hint_spelling Format.Two (Hint.Proof key.now digests.now) }
{
    let bytes = digests.as_slice().as_flattened();
    put(buffer, at, &[PROOF]);
    put(buffer, at + 1, &write_key(key));
    put(buffer, at + PROOF_FRONT_LEN, bytes);
    at + PROOF_FRONT_LEN + bytes.len()
}

/// Writes the bytes that spell a run of marks in format 2, as [`write_proof`] does those of a proof.
pub(crate) fn write_run(
    file: u32,
    first: u32,
    count: u32,
    at: usize,
    buffer: &mut [u8; MAX_RUN_ROOM],
) -> usize
    requires { at ≤ 1 }
    ensures within { result ≤ at + run_length }
    ensures spelled { take result buffer.new
        ≡ take at buffer.old ++ hint_spelling Format.Two (Hint.Marks file first count) }
{
    put(buffer, at, &[RUN]);
    put(buffer, at + 1, &file.to_be_bytes());
    put(buffer, at + 5, &first.to_be_bytes());
    put(buffer, at + 9, &count.to_be_bytes());
    at + RUN_LEN
}
