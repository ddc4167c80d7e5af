//! A reader that gives nothing more once a device of its engine has refused a write.
ghost use Rattle.std.specs.Prelude.{◌≡◌};

use bt_devices::Alarm;
use std::io::{self, ErrorKind, Read};
use std::marker::Model;

/// A reader whose reads fail while an alarm rings. Else it gives what its inner reader gives.
#[derive(Drop)]
pub struct AlarmReader<'a, R> {
    inner: R,
    alarm: &'a Alarm,
}

impl<'a, R> Model for AlarmReader<'a, R> {
    ghost Value = { R };

    ghost view = { λ r. r.inner };
}

impl<'a, R> AlarmReader<'a, R> {
    /// A reader of `inner` that fails while `alarm` rings. The alarm is stopped first, since whatever rang it came
    /// before this connection.
    pub fn new(inner: R, alarm: &'a Alarm) -> Self
        ensures { result ≡ inner }
    {
        alarm.stop();
        AlarmReader { inner, alarm }
    }
}

impl<'a, R: Read> Read for AlarmReader<'a, R> {
    ghost remaining = { λ r. R.remaining r };

    /// Errors: those of the inner reader; `Other` while the alarm rings, and then nothing is read.
    fn read(&mut self, buffer: &mut [u8]) -> io::Result<usize> {
        if self.alarm.is_ringing() {
            return Err(io::Error::from(ErrorKind::Other));
        }
        self.inner.read(buffer)
    }
}
