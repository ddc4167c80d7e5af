//! The lines that tell what an event answered, and how far the files are.
ghost use Rattle.std.specs.Prelude.{◌≡◌, ◌++◌, OnErr, OnOk, IfErr, IfOk, Ok, Some, string_bytes};
ghost use Rattle.bt_machine.specs.Law.{sent_by};
ghost use Rattle.bt_machine.specs.declared.event.Answer.TheVariants.{Connected, Fed, Stepped, Lost, Rechoked, Adopted as AdoptedAnswer, Flushed, Restarted};
ghost use Rattle.bt_replay.specs.Answer.{AllFit, answer_text, refused_text, connect_refusal, event_refusal, adopt_refusal, flush_refusal, restart_refusal, file_line, line_text};

use crate::output::push_output;
use bt_book::PeerKey;
use bt_machine::{
    AdoptError, Answer, ConnectError, EngineError, FileReport, FlushError, Output, RestartError,
};
use bt_store::Adopted;
use std::alloc::{AllocError, Global};
use std::fmt::Write;

/// Adds the lines of an answer. Its frames can be written. Errors: out of memory, and then nothing is added.
pub fn push_answer(alloc: Global, text: &mut String, answer: &Answer) -> Result<(), AllocError>
    requires { AllFit (sent_by answer.now) }
    ensures added { OnOk result (string_bytes text.new ≡ string_bytes text.old
        ++ answer_text answer.now) }
    ensures kept { OnErr result (string_bytes text.new ≡ string_bytes text.old) }
{
    let lines = text_of(alloc, answer)?;
    text.push_str(lines.as_str())
}

/// The lines of an answer.
pub(crate) fn text_of(alloc: Global, answer: &Answer) -> Result<String, AllocError>
    requires { AllFit (sent_by answer.now) }
    ensures { IfOk result (λ text. string_bytes text ≡ answer_text answer.now) }
{
    let mut text = String::new(alloc);
    push_lines(alloc, &mut text, answer)?;
    Ok(text)
}

/// Adds the lines of an answer. Errors: out of memory, and then a part of them may have been added, here and in
/// all functions below.
fn push_lines(alloc: Global, text: &mut String, answer: &Answer) -> Result<(), AllocError>
    requires { AllFit (sent_by answer.now) }
    ensures { OnOk result (string_bytes text.new ≡ string_bytes text.old
        ++ answer_text answer.now) }
{
    match answer {
        Answer::Connected(joined) => push_joined(alloc, text, joined),
        Answer::Fed(fed) => push_done(text, "fed", fed),
        Answer::Stepped(step) => push_step(alloc, text, step),
        Answer::Lost(lost) => push_done(text, "done", lost),
        Answer::Rechoked(choice) => push_choice(alloc, text, choice),
        Answer::Adopted(adopted) => push_adopted(text, adopted),
        Answer::Flushed(flushed) => push_flushed(text, flushed),
        Answer::Restarted(restarted) => push_restarted(text, restarted),
    }
}

fn push_joined(
    alloc: Global,
    text: &mut String,
    joined: &Result<(PeerKey, Output), ConnectError>,
) -> Result<(), AllocError>
    requires { AllFit (sent_by (Connected joined.now)) }
    ensures { OnOk result
        (string_bytes text.new ≡ string_bytes text.old ++ answer_text (Connected joined.now)) }
{
    match joined {
        Ok((key, output)) => {
            writeln!(text, "peer {}", key.0)?;
            push_output(alloc, text, output)
        }
        Err(error) => push_refusal(text, connect_refusal(*error)),
    }
}

fn push_step(
    alloc: Global,
    text: &mut String,
    step: &Result<Option<Output>, EngineError>,
) -> Result<(), AllocError>
    requires { AllFit (sent_by (Stepped step.now)) }
    ensures { OnOk result (string_bytes text.new ≡ string_bytes text.old ++ answer_text
        (Stepped step.now)) }
{
    match step {
        Ok(found) => push_found(alloc, text, found),
        Err(error) => push_refusal(text, event_refusal(*error)),
    }
}

fn push_found(alloc: Global, text: &mut String, found: &Option<Output>) -> Result<(), AllocError>
    requires { AllFit (sent_by (Stepped (Ok found.now))) }
    ensures { OnOk result
        (string_bytes text.new ≡ string_bytes text.old ++ answer_text (Stepped (Ok found.now))) }
{
    match found {
        Some(output) => {
            text.push_str("step\n")?;
            push_output(alloc, text, output)
        }
        None => text.push_str("none\n"),
    }
}

fn push_choice(
    alloc: Global,
    text: &mut String,
    choice: &Result<Output, AllocError>,
) -> Result<(), AllocError>
    requires { AllFit (sent_by (Rechoked choice.now)) }
    ensures { OnOk result
        (string_bytes text.new ≡ string_bytes text.old ++ answer_text (Rechoked choice.now)) }
{
    match choice {
        Ok(output) => {
            text.push_str("step\n")?;
            push_output(alloc, text, output)
        }
        Err(_) => push_refusal(text, "OutOfMemory"),
    }
}

/// Adds a word, or the refusal.
fn push_done(
    text: &mut String,
    word: &str,
    done: &Result<(), EngineError>,
) -> Result<(), AllocError>
    ensures ok { OnOk done.now
        (OnOk result (string_bytes text.new ≡ string_bytes text.old ++ line_text word.now)) }
    ensures err { IfErr done.now (λ error. OnOk result
        (string_bytes text.new ≡ string_bytes text.old ++ refused_text (event_refusal error))) }
{
    match done {
        Ok(()) => writeln!(text, "{word}"),
        Err(error) => push_refusal(text, event_refusal(*error)),
    }
}

fn push_adopted(text: &mut String, adopted: &Result<Adopted, AdoptError>) -> Result<(), AllocError>
    ensures { OnOk result
        (string_bytes text.new ≡ string_bytes text.old ++ answer_text (AdoptedAnswer adopted.now)) }
{
    match adopted {
        Ok(adopted) => writeln!(text, "adopted {}", adopted.marked),
        Err(error) => push_refusal(text, adopt_refusal(*error)),
    }
}

fn push_flushed(text: &mut String, flushed: &Result<(), FlushError>) -> Result<(), AllocError>
    ensures { OnOk result
        (string_bytes text.new ≡ string_bytes text.old ++ answer_text (Flushed flushed.now)) }
{
    match flushed {
        Ok(()) => text.push_str("done\n"),
        Err(error) => push_refusal(text, flush_refusal(*error)),
    }
}

fn push_restarted(text: &mut String, restarted: &Result<(), RestartError>) -> Result<(), AllocError>
    ensures { OnOk result
        (string_bytes text.new ≡ string_bytes text.old ++ answer_text (Restarted restarted.now)) }
{
    match restarted {
        Ok(()) => text.push_str("done\n"),
        Err(error) => push_refusal(text, restart_refusal(*error)),
    }
}

/// Adds the line of a refusal of this name.
fn push_refusal(text: &mut String, name: &str) -> Result<(), AllocError>
    ensures { OnOk result (string_bytes text.new ≡ string_bytes text.old ++ refused_text name.now) }
{
    writeln!(text, "refused {name}")
}

fn connect_refusal(error: ConnectError) -> &'static str
    ensures { result.now ≡ connect_refusal error }
{
    match error {
        ConnectError::Full => "Full",
        ConnectError::SerialsSpent => "SerialsSpent",
        ConnectError::OutOfMemory => "OutOfMemory",
    }
}

fn event_refusal(error: EngineError) -> &'static str
    ensures { result.now ≡ event_refusal error }
{
    match error {
        EngineError::NoPeer => "NoPeer",
        EngineError::OutOfMemory => "OutOfMemory",
    }
}

fn adopt_refusal(error: AdoptError) -> &'static str
    ensures { result.now ≡ adopt_refusal error }
{
    match error {
        AdoptError::NoFile => "NoFile",
        AdoptError::Busy => "Busy",
        AdoptError::OutOfMemory => "OutOfMemory",
    }
}

fn flush_refusal(error: FlushError) -> &'static str
    ensures { result.now ≡ flush_refusal error }
{
    match error {
        FlushError::Device => "Device",
        FlushError::LogFull => "LogFull",
    }
}

/// Of a log that could not be read again only that is told.
fn restart_refusal(error: RestartError) -> &'static str
    ensures { result.now ≡ restart_refusal error }
{
    match error {
        RestartError::Log(_) => "Log",
        RestartError::OutOfMemory => "OutOfMemory",
    }
}

/// Adds the line of a file.
pub(crate) fn push_file(text: &mut String, file: u32, told: FileReport) -> Result<(), AllocError>
    ensures { OnOk result (string_bytes text.new ≡ string_bytes text.old ++ file_line file
        (Some told)) }
{
    let FileReport { marked, blocks, .. } = told;
    let end = if told.complete { " complete" } else { "" };
    writeln!(text, "file {file} {marked} of {blocks}{end}")
}
