//! What an engine sends to one peer, written.
ghost use Rattle.std.specs.Prelude.{[], ◌≡◌, ◌≢◌, ◌≤◌, ◌++◌, IfErr, IfOk, OnOk, vec_capacity};
ghost use Rattle.bt_machine.specs.Frames.{CanBeWritten};
ghost use Rattle.bt_session.specs.declared.end.SessionEnd.TheVariants.{WriteFault};
ghost use Rattle.bt_session.specs.Frames.{spelling, spellings, frames_to, AllFit, AreWritten};
ghost use Rattle.bt_session.specs.Failures.{OnlyAfterFailure, StaysFlushed};

use crate::end::SessionEnd;
use crate::watched::WatchedWriter;
use bt_book::PeerKey;
use bt_machine::Frame;
use bt_wire::{write_handshake, write_message};
use std::alloc::{AllocError, Global};

/// Writes those frames that are sent to a peer, by one write where the writer takes all, and flushes it. The
/// buffer is one that is used again, and keeps its room. Errors: Memory, with nothing written; WriteFault.
pub(crate) fn write_frames<W: WatchedWriter>(
    alloc: Global,
    writer: &mut W,
    key: PeerKey,
    send: &[(PeerKey, Frame)],
    buffer: &mut Vec<u8>,
) -> Result<(), SessionEnd>
    requires fit { AllFit send.now }
    ensures written { AreWritten (W.contents writer.old) (W.contents writer.new)
        (frames_to key send.now)
        result }
    ensures write_fault { IfErr result (OnlyAfterFailure WriteFault (W.has_failed writer.new)) }
    ensures flushed { OnOk result (W.is_flushed writer.new) }
    ensures stays { StaysFlushed W.is_flushed (Err WriteFault) writer.old result writer.new }
    ensures capacity { vec_capacity buffer.old ≤ vec_capacity buffer.new }
{
    if spell_frames(alloc, key, send, buffer).is_err() {
        return Err(SessionEnd::Memory);
    }
    if writer.write_whole(buffer.as_slice()).is_err() {
        return Err(SessionEnd::WriteFault);
    }
    match writer.pass_on() {
        Ok(()) => Ok(()),
        Err(_) => Err(SessionEnd::WriteFault),
    }
}

/// Spells those frames that are sent to a peer, one after the other, in place of what the buffer held, and in
/// the room that it has. Errors: out of memory.
fn spell_frames(
    alloc: Global,
    key: PeerKey,
    send: &[(PeerKey, Frame)],
    buffer: &mut Vec<u8>,
) -> Result<(), AllocError>
    requires fit { AllFit send.now }
    ensures spelled { IfOk result (λ _. buffer.new.items ≡ spellings (frames_to key send.now)) }
    ensures some { IfErr result (λ _. frames_to key send.now ≢ []) }
    ensures capacity { vec_capacity buffer.old ≤ vec_capacity buffer.new }
{
    buffer.clear();
    for (to, frame) in send {
        if *to == key {
            spell(alloc, frame, buffer)?;
        }
    }
    Ok(())
}

/// Spells a frame after what the buffer holds. Errors: out of memory.
fn spell(alloc: Global, frame: &Frame, buffer: &mut Vec<u8>) -> Result<(), AllocError>
    requires fits { CanBeWritten frame.now }
    ensures spelled { IfOk result (λ _. buffer.new.items ≡ buffer.old.items ++ spelling frame.now) }
    ensures capacity { vec_capacity buffer.old ≤ vec_capacity buffer.new }
{
    match frame {
        Frame::Hello(handshake) => buffer.extend_from_slice(&write_handshake(handshake)),
        Frame::Message(message) => {
            let bytes = write_message(alloc, message)?;
            buffer.extend_from_slice(bytes.as_slice())
        }
    }
}
