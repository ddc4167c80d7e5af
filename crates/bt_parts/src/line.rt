//! The lines by which a part of a check tells what it found.
ghost use Rattle.std.specs.Prelude.{◌≡◌, ◌≢◌, ◌++◌, IfSome, IfNone, OnOk, string_bytes};
ghost use Rattle.bt_parts.specs.Line.{IsRunLine, run_line, word_text};
ghost use Rattle.bt_parts.specs.declared.run.Met.{Met as Meeting};
ghost use Rattle.bt_parts.specs.declared.run.Run.{Run as BlockRun};

use crate::field::{first_field, last_field, next_field, number_in};
use crate::run::{Met, Run};
use std::alloc::AllocError;
use std::fmt::Write;

/// The word for what was met.
fn word_of(met: Met) -> &'static str
    ensures { result.now ≡ word_text met }
{
    match met {
        Met::Nothing => "sound",
        Met::Absent => "absent",
        Met::Longer => "longer",
        Met::Unmeasured => "unmeasured",
        Met::Unread => "unread",
    }
}

/// What a word says was met, where it is one.
fn met_in(word: &[u8]) -> Option<Met>
    ensures some { IfSome result (λ met. word_text met ≡ word.now) }
    ensures none { IfNone result ((met : Meeting) → word_text met ≢ word.now) }
{
    match word {
        b"sound" => Some(Met::Nothing),
        b"absent" => Some(Met::Absent),
        b"longer" => Some(Met::Longer),
        b"unmeasured" => Some(Met::Unmeasured),
        b"unread" => Some(Met::Unread),
        _ => None,
    }
}

/// Adds the line of a run. Errors: out of memory, and the text may then have a part of the line.
pub fn push_line(text: &mut String, run: Run) -> Result<(), AllocError>
    ensures { OnOk result (string_bytes text.new ≡ string_bytes text.old ++ run_line run) }
{
    let Run {
        file,
        from,
        to,
        marked,
        met,
    } = run;
    let word = word_of(met);
    writeln!(text, "{file} {from} {to} {marked} {word}")
}

/// The run that a line tells, without its end; None where it tells none.
pub fn run_in(line: &[u8]) -> Option<Run>
    ensures some { IfSome result (IsRunLine line.now) }
    ensures none { IfNone result ((run : BlockRun) → ¬ IsRunLine line.now run) }
{
    let (field, rest) = first_field(line);
    let file = number_in(field)?;
    let (field, rest) = next_field(rest)?;
    let from = number_in(field)?;
    let (field, rest) = next_field(rest)?;
    let to = number_in(field)?;
    let (field, rest) = next_field(rest)?;
    let marked = number_in(field)?;
    let word = last_field(rest)?;
    let met = met_in(word)?;
    Some(Run {
        file,
        from,
        to,
        marked,
        met,
    })
}
