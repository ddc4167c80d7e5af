//! How it ends with a peer, and the words for it.
ghost use Rattle.std.specs.Prelude.{◌≡◌};
ghost use Rattle.bt_session.specs.PeerEnd.{close_text, session_text, end_text};

use crate::end::SessionEnd;
use bt_machine::{ConnectError, Why};

/// How it ended with a peer.
#[derive(Clone, Copy, Debug, PartialEq, Eq)]
pub enum PeerEnd {
    /// It was not dialled.
    Untried,
    /// It was dialled and not reached.
    Unreachable,
    /// It was reached, and the engine did not take it, for want of memory or of a key.
    Refused(ConnectError),
    /// It had a session, which ended so.
    Session(SessionEnd),
}

/// An end in a word or two.
pub fn end_text(end: PeerEnd) -> &'static str
    ensures { result.now ≡ end_text end }
{
    match end {
        PeerEnd::Untried => "untried",
        PeerEnd::Unreachable => "unreachable",
        PeerEnd::Refused(_) => "memory",
        PeerEnd::Session(end) => session_text(end),
    }
}

fn session_text(end: SessionEnd) -> &'static str
    ensures { result.now ≡ session_text end }
{
    match end {
        SessionEnd::Complete => "complete",
        SessionEnd::Ended => "ended",
        SessionEnd::Closed(why) => close_text(why),
        SessionEnd::TurnsSpent => "turns",
        SessionEnd::ReadFault | SessionEnd::WriteFault => "fault",
        SessionEnd::Memory => "memory",
    }
}

fn close_text(why: Why) -> &'static str
    ensures { result.now ≡ close_text why }
{
    match why {
        Why::Wire(_) => "closed C1",
        Why::WrongTorrent => "closed C2",
        Why::BadPiece => "closed C3",
        Why::BadBitfield => "closed C4",
        Why::BadRequest => "closed C5",
        Why::WrongBlock => "closed C6",
        Why::UnknownRoot => "closed C7",
        Why::Proof(_) => "closed C8",
    }
}
