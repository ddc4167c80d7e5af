//! How leave is taken of a peer. A socket that is closed while bytes of its peer wait makes the system reset the
//! connection: what is on its way to the peer is lost then, and its next call fails.
ghost use Rattle.std.specs.Prelude.{◌≤◌, IfOk, IfSome, MatchOption};
ghost use Rattle.std.specs.Io.KnownBytes.{ConsumesCount};
ghost use Rattle.bt_sockets.specs.PartingSteps.{Loses, LosesAtMost};

use crate::timed_stream::is_again;
use std::io::{self, Read};
use std::net::{OpenStream, Shutdown};
use std::time::{Clock, Duration, Instant};

/// For how many milliseconds at most a peer is heard out.
pub const PARTING_MILLIS: u64 = 1000;

/// How many bytes of it are taken meanwhile at most.
pub const PARTING_LEN: usize = 65_536;

/// How many bytes are taken at a time.
const PART_LEN: usize = 4096;

/// Tells the peer that nothing more comes, and hears it out, where its socket is there still.
pub(crate) fn part<S: Read + OpenStream, C: Clock>(stream: &mut S, clock: &C)
    ensures { LosesAtMost PARTING_LEN (S.remaining stream.old) (S.remaining stream.new) }
{
    if stream.shutdown(Shutdown::Write).is_ok() {
        hear_out(stream, clock);
    }
}

/// Takes what the peer sends, which nobody reads, until it is at its end, for `PARTING_MILLIS` and `PARTING_LEN` bytes
/// at most; or until the socket or the clock fails.
fn hear_out<S: Read + OpenStream, C: Clock>(stream: &mut S, clock: &C)
    ensures { LosesAtMost PARTING_LEN (S.remaining stream.old) (S.remaining stream.new) }
{
    let Ok(begun) = Instant::now(clock) else {
        return;
    };
    let mut left = PARTING_LEN;
    // A bound, so that it ends whatever the system gives.
    for _ in 0..u64::MAX {
        match hear(stream, clock, begun, left) {
            Some(count) => left -= count,
            None => return,
        }
    }
}

/// Reads once more, at most `left` bytes, of a peer that is heard since then, and says how many came. None: it is heard
/// out, or the socket or the clock fails.
fn hear<S: Read + OpenStream, C: Clock>(
    stream: &mut S,
    clock: &C,
    begun: Instant,
    left: usize,
) -> Option<usize>
    ensures few { IfSome result (λ count. count ≤ left) }
    ensures heard { MatchOption result (Loses 0 (S.remaining stream.old) (S.remaining stream.new))
        (λ count. Loses count (S.remaining stream.old) (S.remaining stream.new)) }
{
    let turn = time_left(begun, Instant::now(clock).ok()?);
    if left == 0 || turn.is_zero() {
        return None;
    }
    stream.set_read_timeout(Some(turn)).ok()?;
    match take_part(stream, left) {
        Ok(0) => None,
        Ok(count) => Some(count),
        Err(error) if is_again(error.kind()) => Some(0),
        Err(_) => None,
    }
}

/// How long a peer is heard yet, where it is since then.
fn time_left(begun: Instant, now: Instant) -> Duration {
    Duration::from_millis(PARTING_MILLIS).saturating_sub(now.duration_since(begun))
}

/// Reads once, at most `most` bytes, and says how many came. Errors: those of the socket.
pub fn take_part<S: Read>(stream: &mut S, most: usize) -> io::Result<usize>
    ensures few { IfOk result (λ count. count ≤ most) }
    ensures taken { ConsumesCount (S.remaining stream.old) (S.remaining stream.new) result }
{
    let mut buffer = [0; PART_LEN];
    stream.read(&mut buffer[..most.min(PART_LEN)])
}
