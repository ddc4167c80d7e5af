//! The line that tells how far some work is, in units that people read.
ghost use Rattle.std.specs.Prelude.{◌≡◌, ◌++◌, ◌<◌, ◌≤◌, IfOk, OnOk, string_bytes};
ghost use Rattle.bt_progress.specs.Line.{all_text, left_text, line_text, peers_text, rate_text, share_text, size_text, speed_text, tebibyte, tenths_text, time_text};

use crate::meter::Meter;
use std::alloc::{AllocError, Global};
use std::fmt::Write;

const KIBIBYTE: u128 = 1 << 10;

const MEBIBYTE: u128 = 1 << 20;

const GIBIBYTE: u128 = 1 << 30;

const TEBIBYTE: u128 = 1 << 40;

/// The line on work that has taken `millis` milliseconds: the bytes done, of all and in hundredths where it is
/// known how many these are, how many peers are there where many come at once, the bytes a second, and the time that
/// the rest takes at this rate.
pub fn progress_line(
    alloc: Global,
    meter: Meter,
    peers: Option<usize>,
    millis: u64,
) -> Result<String, AllocError>
    ensures { IfOk result (λ line. string_bytes line
        ≡ line_text meter.done meter.all peers millis) }
{
    let mut line = String::new(alloc);
    push_share(&mut line, meter)?;
    push_peers(&mut line, peers)?;
    push_speed(&mut line, meter, meter.rate(millis))?;
    Ok(line)
}

/// A number of bytes, from 1,024 on in tenths of the greatest unit that it reaches.
pub fn size_text(alloc: Global, bytes: u64) -> Result<String, AllocError>
    ensures { IfOk result (λ text. string_bytes text ≡ size_text bytes) }
{
    let mut text = String::new(alloc);
    push_size(&mut text, bytes as u128)?;
    Ok(text)
}

/// Adds how much is done.
fn push_share(line: &mut String, meter: Meter) -> Result<(), AllocError>
    ensures { OnOk result (string_bytes line.new ≡ string_bytes line.old
        ++ share_text meter.done meter.all) }
{
    push_size(line, meter.done as u128)?;
    if meter.all == 0 {
        return Ok(());
    }
    push_all(line, meter.all, meter.percent())
}

/// Adds of how many bytes that is, and the hundredths.
fn push_all(line: &mut String, all: u64, percent: u128) -> Result<(), AllocError>
    ensures { OnOk result (string_bytes line.new ≡ string_bytes line.old ++ all_text all percent) }
{
    write!(line, " of ")?;
    push_size(line, all as u128)?;
    write!(line, " ({percent}%)")
}

/// Adds how many peers are there, where many come at once.
fn push_peers(line: &mut String, peers: Option<usize>) -> Result<(), AllocError>
    ensures { OnOk result (string_bytes line.new ≡ string_bytes line.old ++ peers_text peers) }
{
    match peers {
        None => Ok(()),
        Some(1) => write!(line, ", 1 peer"),
        Some(count) => write!(line, ", {count} peers"),
    }
}

/// Adds the bytes a second, which are these, and where it is known what is to be done, how long the rest takes.
fn push_speed(line: &mut String, meter: Meter, rate: u128) -> Result<(), AllocError>
    ensures { OnOk result
        (string_bytes line.new ≡ string_bytes line.old ++ speed_text meter.done meter.all rate) }
{
    push_rate(line, rate)?;
    if meter.all == 0 || rate == 0 {
        return Ok(());
    }
    push_left(line, meter.all.saturating_sub(meter.done) as u128 / rate)
}

/// Adds the bytes a second.
fn push_rate(line: &mut String, rate: u128) -> Result<(), AllocError>
    ensures { OnOk result (string_bytes line.new ≡ string_bytes line.old ++ rate_text rate) }
{
    write!(line, ", ")?;
    push_size(line, rate)?;
    write!(line, "/s")
}

/// Adds how many seconds are left.
fn push_left(line: &mut String, seconds: u128) -> Result<(), AllocError>
    ensures { OnOk result (string_bytes line.new ≡ string_bytes line.old ++ left_text seconds) }
{
    write!(line, ", ")?;
    push_time(line, seconds)?;
    write!(line, " left")
}

/// Adds a number of bytes, from 1,024 on in tenths of the greatest unit that it reaches.
fn push_size(text: &mut String, bytes: u128) -> Result<(), AllocError>
    ensures { OnOk result (string_bytes text.new ≡ string_bytes text.old ++ size_text bytes) }
{
    if bytes < KIBIBYTE {
        write!(text, "{bytes} B")
    } else if bytes < MEBIBYTE {
        push_tenths(text, bytes, KIBIBYTE, "KiB")
    } else if bytes < GIBIBYTE {
        push_tenths(text, bytes, MEBIBYTE, "MiB")
    } else if bytes < TEBIBYTE {
        push_tenths(text, bytes, GIBIBYTE, "GiB")
    } else {
        push_tenths(text, bytes, TEBIBYTE, "TiB")
    }
}

/// Adds a number of bytes in tenths of a unit, which has this name.
fn push_tenths(text: &mut String, bytes: u128, unit: u128, name: &str) -> Result<(), AllocError>
    requires some { 0 < unit }
    requires short { unit ≤ tebibyte }
    ensures { OnOk result (string_bytes text.new ≡ string_bytes text.old
        ++ tenths_text bytes unit name.now) }
{
    let whole = bytes / unit;
    let tenths = bytes % unit * 10 / unit;
    write!(text, "{whole}.{tenths} {name}")
}

/// Adds a number of seconds: with minutes from one on, and from an hour on in hours and minutes.
fn push_time(text: &mut String, seconds: u128) -> Result<(), AllocError>
    ensures { OnOk result (string_bytes text.new ≡ string_bytes text.old ++ time_text seconds) }
{
    if seconds < 60 {
        write!(text, "{seconds} s")
    } else if seconds < 3600 {
        write!(text, "{} min {} s", seconds / 60, seconds % 60)
    } else {
        write!(text, "{} h {} min", seconds / 3600, seconds / 60 % 60)
    }
}
