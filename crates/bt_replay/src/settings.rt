//! The settings at the front of a script's lines.
ghost use Rattle.std.specs.Prelude.{◌≡◌, ◌^◌, ◌<◌, IfOk, length};
ghost use Rattle.std.specs.Bool.{OnTrue, OnFalse};
ghost use Rattle.bt_replay.specs.Devices.{SetsFront, SetsNone};
ghost use Rattle.bt_replay.specs.DevicesSteps.{SetsBy};
ghost use Rattle.bt_replay.specs.Run.{lines_in};

use crate::devices::{Device, set_device};
use crate::field::cut;
use crate::line::line_in;
use std::alloc::{AllocError, Global};

/// Makes the settings at the front of the lines. Gives the lines after them, and how many they are. Errors:
/// out of memory.
pub(crate) fn set_devices<'a>(
    alloc: Global,
    devices: &mut Vec<Option<Device>>,
    lines: Option<&'a [u8]>,
) -> Result<(Option<&'a [u8]>, u64), AllocError>
    requires { length (lines_in lines) < 2 ^ 64 }
    ensures { IfOk result (λ left. SetsFront devices.old.items (lines_in lines.entry) left.1
        (lines_in left.0) devices.new.items) }
{
    let mut rest = lines;
    let mut count = 0;
    'lines: while let Some(text) = rest {
        let (line, more) = cut(text, b'\n');
        if !set_by(alloc, devices, line)? {
            return Ok((rest, count));
        }
        rest = more;
        count += 1;
    }
    Ok((None, count))
}

/// Makes the setting that a text spells. False where it spells none; nothing changed then. Errors: out of
/// memory.
fn set_by(alloc: Global, devices: &mut Vec<Option<Device>>, text: &[u8]) -> Result<bool, AllocError>
    ensures set { IfOk result
        (λ set. OnTrue set (SetsBy devices.old.items text.now devices.new.items)) }
    ensures unset { IfOk result (λ set. OnFalse set (SetsNone devices.old.items text.now)) }
    ensures kept { IfOk result (λ set. OnFalse set (devices.new.items ≡ devices.old.items)) }
{
    match line_in(alloc, text)? {
        Some(line) => Ok(set_device(devices, &line)),
        None => Ok(false),
    }
}
