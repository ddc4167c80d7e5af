//! The handshake or the message with which unread bytes begin (BEP 3), or the fault that they show.
ghost use Rattle.std.specs.Prelude.{◌+◌, ◌<◌, ◌↔◌, true, false, IsTrue, IfSome, IfNone, IfOk, IfErr};
ghost use Rattle.std.specs.Bool.{OnTrue, OnFalse};
ghost use Rattle.bt_wire.specs.Event.{IsEvent, ShowsBadProtocol, ShowsFault};
ghost use Rattle.bt_wire.specs.FrontSteps.{FitsKind, IsMisfit, IsLawfulFrame, BeginsLawfulFrame, BeginsHandshake, BeginsWith, HasFrame, IsPartial, IsFrontRefusal};

use crate::event::{WireError, WireEvent};
use crate::frames::{HEAD_LEN, LENGTH_LEN};
use crate::handshake::{HANDSHAKE_LEN, Handshake, PROTOCOL};
use crate::message::{MAX_LENGTH_FIELD, Message};
use crate::reader::{payload_fits, read_message};
use bt_hashreq::number_at;
use std::alloc::{AllocError, Global};

/// The event with which the bytes begin, and how many bytes it has; None where neither an event nor a fault
/// is there.
pub(crate) fn first_event(
    alloc: Global,
    greeted: bool,
    unread: &[u8],
) -> Result<Option<(WireEvent, usize)>, WireError>
    ensures event { IfOk result (λ found. IfSome found (BeginsWith greeted unread.now)) }
    ensures none { IfOk result (λ found. IfNone found (IsPartial greeted unread.now)) }
    ensures refused { IfErr result (IsFrontRefusal greeted unread.now) }
{
    if greeted {
        let Some(len) = frame_len(unread)? else {
            return Ok(None);
        };
        let event = read_frame(alloc, &unread[..len])?;
        Ok(Some((event, len)))
    } else {
        let Some(handshake) = first_handshake(unread)? else {
            return Ok(None);
        };
        Ok(Some((WireEvent::Hello(handshake), HANDSHAKE_LEN)))
    }
}

/// The handshake with which the bytes begin; None where they end within it.
fn first_handshake(unread: &[u8]) -> Result<Option<Handshake>, WireError>
    ensures hello { IfOk result (λ found. IfSome found (BeginsHandshake unread.now)) }
    ensures none { IfOk result (λ found. IfNone found (IsPartial false unread.now)) }
    ensures fault { IfErr result (ShowsFault false unread.now) }
{
    if shows_bad_protocol(unread) {
        return Err(WireError::BadProtocol);
    }
    if unread.len() < HANDSHAKE_LEN {
        return Ok(None);
    }
    let mut infohash = [0; 20];
    infohash.copy_from_slice(&unread[28..48]);
    let mut peer_id = [0; 20];
    peer_id.copy_from_slice(&unread[48..68]);
    Ok(Some(Handshake { infohash, peer_id }))
}

/// Whether one of the first twenty bytes that are there is not the protocol's.
fn shows_bad_protocol(unread: &[u8]) -> bool
    ensures { IsTrue result ↔ ShowsBadProtocol unread.now }
{
    for i in 0..unread.len().min(PROTOCOL.len()) {
        if unread[i] != PROTOCOL[i] {
            return true;
        }
    }
    false
}

/// How many bytes the first message has, its length field among them; None where they end within it.
fn frame_len(unread: &[u8]) -> Result<Option<usize>, WireError>
    ensures whole { IfOk result (λ found. IfSome found (BeginsLawfulFrame unread.now)) }
    ensures part { IfOk result (λ found. IfNone found (IsPartial true unread.now)) }
    ensures fault { IfErr result (ShowsFault true unread.now) }
{
    if unread.len() < LENGTH_LEN {
        return Ok(None);
    }
    let field = number_at(unread, 0) as usize;
    if field > MAX_LENGTH_FIELD {
        return Err(WireError::TooLong);
    }
    if field == 0 {
        return Ok(Some(LENGTH_LEN));
    }
    if unread.len() == LENGTH_LEN {
        return Ok(None);
    }
    if !fits_kind(unread[LENGTH_LEN], field - 1) {
        return Err(WireError::BadLength);
    }
    if unread.len() < LENGTH_LEN + field {
        return Ok(None);
    }
    Ok(Some(LENGTH_LEN + field))
}

/// Whether a payload of `len` bytes fits the kind; every payload fits an unknown kind.
fn fits_kind(kind: u8, len: usize) -> bool
    ensures yes { OnTrue result (FitsKind kind len) }
    ensures no { OnFalse result (IsMisfit kind len) }
{
    match payload_fits(kind, len) {
        Some(fits) => fits,
        None => true,
    }
}

/// The event that these bytes spell, a whole message.
fn read_frame(alloc: Global, frame: &[u8]) -> Result<WireEvent, AllocError>
    requires { IsLawfulFrame frame.now }
    ensures event { IfOk result (λ event. IsEvent true event frame.now) }
    ensures refused { IfErr result (λ _. HasFrame frame.now) }
{
    if frame.len() <= LENGTH_LEN {
        return Ok(WireEvent::Message(Message::KeepAlive));
    }
    let kind = frame[LENGTH_LEN];
    match read_message(alloc, kind, &frame[HEAD_LEN..])? {
        Some(message) => Ok(WireEvent::Message(message)),
        None => Ok(WireEvent::Skipped(kind)),
    }
}
