//! Readers and writers whose failures are told.
//!
//! No clause of `Read` or `Write` says what holds where a call failed. Every reader is a `WatchedReader` and every
//! writer a `WatchedWriter`, of which that is said.
ghost use Rattle.std.specs.Prelude.{OnErr, OnOk};
ghost use Rattle.std.specs.Io.{ReadsAtMost};
ghost use Rattle.std.specs.Io.KnownBytes.{Appends, Keeps, ReadConsumes};

use std::io;
use std::io::{Read, Write};

/// A reader of which it is told whether a read failed.
///
/// Each type that is read passes as one, and of each `has_failed` is true: std says of no call when it fails. So of a
/// concrete reader a clause that cites it says nothing. Of code over any reader, which is proved whatever `has_failed`
/// may be, it says that the code tells of a failed read only where one failed.
pub trait WatchedReader: Read {
    /// Its last read failed.
    ghost has_failed: { Self → Type 0 };

    /// Reads once, as `read`, with its errors.
    fn read_once(&mut self, buffer: &mut [u8]) -> io::Result<usize>
        ensures bound { ReadsAtMost result buffer.new }
        ensures bytes { ReadConsumes (Self.remaining self.old) (Self.remaining self.new) result
            buffer.new }
        ensures failed { OnErr result (has_failed self.new) };
}

impl<R: Read> WatchedReader for R {
    ghost use Rattle.std.specs.Prelude.{⊤};

    ghost has_failed = { λ _. ⊤ };

    fn read_once(&mut self, buffer: &mut [u8]) -> io::Result<usize> {
        self.read(buffer)
    }
}

/// A writer of which it is told whether a call failed, and whether it is flushed.
///
/// As of readers, of each concrete type both members are true, and a clause that cites them says something only of code
/// over any writer: that it tells of a fault only where a call failed, and ends behind a flush that succeeded.
pub trait WatchedWriter: Write {
    /// Its last call failed.
    ghost has_failed: { Self → Type 0 };

    /// Nothing was written since its last flush, which succeeded.
    ghost is_flushed: { Self → Type 0 };

    /// Writes all of the bytes, as `write_all`, with its errors.
    fn write_whole(&mut self, bytes: &[u8]) -> io::Result<()>
        ensures bytes { OnOk result (Appends (Self.contents self.old) (Self.contents self.new)
            bytes.now) }
        ensures failed { OnErr result (has_failed self.new) };

    /// Passes on all that it holds, as `flush`, with its errors.
    fn pass_on(&mut self) -> io::Result<()>
        ensures bytes { Keeps (Self.contents self.old) (Self.contents self.new) }
        ensures flushed { OnOk result (is_flushed self.new) }
        ensures failed { OnErr result (has_failed self.new) };
}

impl<W: Write> WatchedWriter for W {
    ghost use Rattle.std.specs.Prelude.{⊤};

    ghost has_failed = { λ _. ⊤ };

    ghost is_flushed = { λ _. ⊤ };

    fn write_whole(&mut self, bytes: &[u8]) -> io::Result<()> {
        self.write_all(bytes)
    }

    fn pass_on(&mut self) -> io::Result<()> {
        self.flush()
    }
}
