//! The events that lines ask for, and the text that tells of them.
ghost use Rattle.std.specs.Prelude.{◌≡◌, ◌++◌, IfOk, IfSome, IfNone, None, OnErr, OnOk, string_bytes};
ghost use Rattle.bt_machine.specs.Law.{sent_by};
ghost use Rattle.bt_replay.specs.Answer.{AllFit, report_text};
ghost use Rattle.bt_replay.specs.Event.{Does, IsIdle, event_of};
ghost use Rattle.bt_replay.specs.EventSteps.{AnswersLine};

use crate::answer::{push_file, text_of};
use crate::line::Line;
use bt_disk::Disk;
use bt_engine::Engine;
use bt_machine::{Answer, events_send_what_fits};
use bt_tree::NodeHash;
use std::alloc::{AllocError, Global};

/// Does what a line asks for, and gives the text that tells of it; None where it asks for no event and no
/// report. Errors: out of memory, where it asks for one.
pub(crate) fn told<D: Disk + Drop, H: NodeHash>(
    alloc: Global,
    engine: &mut Engine<D, H>,
    hash: H,
    handshake: &[u8],
    line: &Line,
) -> Result<Option<String>, AllocError>
    ensures told { IfOk result (λ found. IfSome found (λ text.
        Does D.conduct H.digest handshake.now engine.old line.now (string_bytes text)
        engine.new)) }
    ensures idle { IfOk result (λ found. IfNone found (IsIdle handshake.now line.now)) }
    ensures memory { OnErr result (¬ IsIdle handshake.now line.now) }
{
    if let Line::Report = line {
        return Ok(Some(report(alloc, engine)?));
    }
    match fitting_answer(engine, hash, handshake, line) {
        Some(answer) => Ok(Some(text_of(alloc, &answer)?)),
        None => Ok(None),
    }
}

/// How far each file is.
fn report<D: Disk + Drop, H: NodeHash>(
    alloc: Global,
    engine: &Engine<D, H>,
) -> Result<String, AllocError>
    ensures { IfOk result (λ text. string_bytes text ≡ report_text engine.now.state) }
{
    let mut text = String::new(alloc);
    push_files(&mut text, engine)?;
    Ok(text)
}

/// Adds to a text how far each file is. Errors: out of memory, and then some of it may have been added.
fn push_files<D: Disk + Drop, H: NodeHash>(
    text: &mut String,
    engine: &Engine<D, H>,
) -> Result<(), AllocError>
    ensures { OnOk result (string_bytes text.new ≡ string_bytes text.old
        ++ report_text engine.now.state) }
{
    for file in 0..u32::MAX {
        match engine.report(file) {
            Some(told) => push_file(text, file, told)?,
            None => return Ok(()),
        }
    }
    // A torrent has far fewer files.
    Err(AllocError)
}

/// The answer to the event that a line asks for, whose frames can be written.
fn fitting_answer<D: Disk + Drop, H: NodeHash>(
    engine: &mut Engine<D, H>,
    hash: H,
    handshake: &[u8],
    line: &Line,
) -> Option<Answer>
    ensures some { IfSome result (λ answer. AnswersLine D.conduct H.digest handshake.now
        engine.old line.now answer engine.new) }
    ensures fit { IfSome result (λ answer. AllFit (sent_by answer)) }
    ensures none { IfNone result (event_of handshake.now line.now ≡ None) }
{
    engine.keeps_laws();
    events_send_what_fits(hash);
    answer_of(engine, handshake, line)
}

/// The answer to the event that a line asks for; None where it asks for none.
fn answer_of<D: Disk + Drop, H: NodeHash>(
    engine: &mut Engine<D, H>,
    handshake: &[u8],
    line: &Line,
) -> Option<Answer>
    ensures some { IfSome result (λ answer. AnswersLine D.conduct H.digest handshake.now
        engine.old line.now answer engine.new) }
    ensures none { IfNone result (event_of handshake.now line.now ≡ None) }
{
    match line {
        Line::Connect => Some(Answer::Connected(engine.connect())),
        Line::Hello(key) => Some(Answer::Fed(engine.feed(*key, handshake))),
        Line::Feed(key, bytes) => Some(Answer::Fed(engine.feed(*key, bytes.as_slice()))),
        Line::Next(key) => Some(Answer::Stepped(engine.next(*key))),
        Line::Lost(key) => Some(Answer::Lost(engine.lost(*key))),
        Line::Rechoke => Some(Answer::Rechoked(engine.rechoke())),
        Line::Adopt(file) => Some(Answer::Adopted(engine.adopt(*file))),
        Line::Flush => Some(Answer::Flushed(engine.flush())),
        Line::Restart => Some(Answer::Restarted(engine.restart())),
        Line::Torrent(_) | Line::Fault { .. } | Line::Flip { .. } | Line::Report => None,
    }
}
