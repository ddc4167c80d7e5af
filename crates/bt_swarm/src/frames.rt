//! What an engine sends to one peer, put into its way out.
ghost use Rattle.std.specs.Prelude.{[], ◌≡◌, ◌≤◌, ◌++◌, IfErr, IfOk, OnErr, OnOk, vec_capacity};
ghost use Rattle.std.specs.Io.KnownBytes.{Appends, Keeps};
ghost use Rattle.bt_machine.specs.Frames.{CanBeWritten};
ghost use Rattle.bt_session.specs.Frames.{spelling, spellings, frames_to, AllFit};
ghost use Rattle.bt_session.specs.Failures.{OneFailed};
ghost use Rattle.bt_swarm.specs.Causes.{IsFault};

use crate::gate::QueuedWriter;
use bt_book::PeerKey;
use bt_machine::Frame;
use bt_session::SessionEnd;
use bt_wire::{write_handshake, write_message};
use std::alloc::{AllocError, Global};
use std::io::ErrorKind;

/// Puts those frames that are sent to a peer into its way out, all or none. The buffer is one that is used
/// again, and keeps its room. Errors: how the connection ends by that, Memory or WriteFault.
pub(crate) fn put_frames<W: QueuedWriter>(
    alloc: Global,
    writer: &mut W,
    key: PeerKey,
    send: &[(PeerKey, Frame)],
    buffer: &mut Vec<u8>,
) -> Result<(), SessionEnd>
    requires fit { AllFit send.now }
    ensures put { OnOk result (Appends (W.contents writer.old) (W.contents writer.new)
        (spellings (frames_to key send.now))) }
    ensures kept { OnErr result (Keeps (W.contents writer.old) (W.contents writer.new)) }
    ensures fault { IfErr result (IsFault ⊥ (OneFailed W.has_failed)) }
{
    if spell_frames(alloc, key, send, buffer).is_err() {
        return Err(SessionEnd::Memory);
    }
    if buffer.is_empty() {
        return Ok(());
    }
    put(writer, buffer.as_slice())
}

/// Puts bytes into a way out, all or none. Errors: how the connection ends by that, Memory or WriteFault.
pub(crate) fn put<W: QueuedWriter>(writer: &mut W, bytes: &[u8]) -> Result<(), SessionEnd>
    ensures put { OnOk result (Appends (W.contents writer.old) (W.contents writer.new) bytes.now) }
    ensures kept { OnErr result (Keeps (W.contents writer.old) (W.contents writer.new)) }
    ensures fault { IfErr result (IsFault ⊥ (OneFailed W.has_failed)) }
{
    match writer.put(bytes) {
        Ok(()) => Ok(()),
        Err(error) if error.kind() == ErrorKind::OutOfMemory => Err(SessionEnd::Memory),
        Err(_) => Err(SessionEnd::WriteFault),
    }
}

/// Spells those frames that are sent to a peer, one after the other, in place of what the buffer held, and in
/// the room that it has. Errors: out of memory.
fn spell_frames(
    alloc: Global,
    key: PeerKey,
    send: &[(PeerKey, Frame)],
    buffer: &mut Vec<u8>,
) -> Result<(), AllocError>
    requires fit { AllFit send.now }
    ensures spelled { IfOk result (λ _. buffer.new.items ≡ spellings (frames_to key send.now)) }
    ensures capacity { vec_capacity buffer.old ≤ vec_capacity buffer.new }
{
    buffer.clear();
    for (to, frame) in send {
        if *to == key {
            spell(alloc, frame, buffer)?;
        }
    }
    Ok(())
}

/// Spells a frame after what the buffer holds. Errors: out of memory.
fn spell(alloc: Global, frame: &Frame, buffer: &mut Vec<u8>) -> Result<(), AllocError>
    requires fits { CanBeWritten frame.now }
    ensures spelled { IfOk result (λ _. buffer.new.items ≡ buffer.old.items ++ spelling frame.now) }
    ensures capacity { vec_capacity buffer.old ≤ vec_capacity buffer.new }
{
    match frame {
        Frame::Hello(handshake) => buffer.extend_from_slice(&write_handshake(handshake)),
        Frame::Message(message) => {
            let bytes = write_message(alloc, message)?;
            buffer.extend_from_slice(bytes.as_slice())
        }
    }
}
