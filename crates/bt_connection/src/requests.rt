//! Requests that are sent together, right before the connection is read next: a peer that gets several requests at
//! once answers them without being woken for each.
ghost use Rattle.std.specs.Prelude.{◌≡◌, ◌≤◌, ℕ, List, [], ◌++◌, length, take, IfOk, OnOk};
ghost use Rattle.std.specs.Bool.{OnTrue, OnFalse};
ghost use Rattle.std.specs.Io.{ReadsAtMost, WritesAtMost};
ghost use Rattle.std.specs.Io.KnownBytes.{Appends, Keeps, WriteAppends, ReadConsumes};
ghost use Rattle.bt_wire.specs.declared.frames.TheConstants.{REQUEST_LEN};
ghost use Rattle.bt_wire.specs.Frames.{IsRequest};
ghost use Rattle.bt_connection.specs.Requests.{AreRequests, SendsRequests, IsHeldOrWritten, IsReadBehind};

use crate::lent::{Lent, Renew};
use bt_wire::frames::{REQUEST_LEN, read_request};
use std::alloc::{AllocError, Global};
use std::io::{self, Read, Write};
use std::marker::Model;

/// How many bytes there is room for: 64 requests, four times as many as an engine asks one peer for.
const ROOM_LEN: usize = 64 * REQUEST_LEN;

/// Requests that were written and are not sent yet: whole requests, and nothing else. The type says so, so whoever
/// borrows them knows it, though no clause knows what lies in a cell.
#[derive(Drop)]
pub struct Requests {
    bytes: Vec<u8>,
}

impl Model for Requests {
    ghost use Rattle.std.specs.Prelude.{ℕ, List};
    ghost use Rattle.bt_connection.specs.Requests.{AreRequests};

    ghost Value = { List ℕ };

    ghost view = { λ r. r.bytes.items };

    ghost invariant = { λ r. AreRequests r.bytes.items };
}

impl Requests {
    /// No requests yet. All the memory that they ever take is taken here. Errors: out of memory.
    pub fn new(alloc: Global) -> Result<Self, AllocError>
        ensures { IfOk result (λ requests. requests ≡ []) }
    {
        Ok(Requests {
            bytes: Vec::with_capacity(alloc, ROOM_LEN)?,
        })
    }

    /// Holds bytes back, behind those that are held already, where they are requests and nothing else, and there is
    /// room for them. Gives whether it did.
    fn hold(&mut self, bytes: &[u8]) -> bool
        ensures held { OnTrue result (self.new ≡ self.old ++ bytes.now) }
        ensures requests { OnTrue result (AreRequests bytes.now) }
        ensures kept { OnFalse result (self.new ≡ self.old) }
    {
        if bytes.len() > ROOM_LEN - self.bytes.len().min(ROOM_LEN) || !are_requests(bytes) {
            return false;
        }
        self.bytes.extend_from_slice(bytes).is_ok()
    }

    /// Sends all requests that are held. None is held then, also after an error. Errors: those of the writer.
    fn send<W: Write>(&mut self, to: &mut W) -> io::Result<()>
        ensures sent { OnOk result (Appends (W.contents to.old) (W.contents to.new) self.old) }
        ensures requests { AreRequests self.old }
        ensures none { self.new ≡ [] }
    {
        let answer = to.write_all(self.bytes.as_slice());
        self.bytes.clear();
        answer
    }
}

impl Renew for Requests {
    ghost use Rattle.std.specs.Prelude.{◌≡◌, []};

    ghost is_new = { λ r. r ≡ [] };

    fn renew(&mut self) {
        self.bytes.clear();
    }
}

/// Whether these bytes begin with a request.
fn begins_request(bytes: &[u8]) -> bool
    ensures whole { OnTrue result (REQUEST_LEN ≤ length bytes.now) }
    ensures request { OnTrue result (IsRequest (take REQUEST_LEN bytes.now)) }
{
    if bytes.len() < REQUEST_LEN {
        return false;
    }
    read_request(&bytes[..REQUEST_LEN]).is_some()
}

/// Whether these bytes are whole requests, one after the other, and nothing else.
fn are_requests(bytes: &[u8]) -> bool
    ensures { OnTrue result (AreRequests bytes.now) }
{
    let mut rest = bytes;
    'requests: while !rest.is_empty() {
        if !begins_request(rest) {
            return false;
        }
        rest = &rest[REQUEST_LEN..];
    }
    true
}

/// Holds bytes back as `hold` does. While the requests are in use, which no call of this crate brings about, nothing
/// is held.
fn hold_shared(requests: Lent<'_, Requests>, bytes: &[u8]) -> bool
    ensures { OnTrue result (AreRequests bytes.now) }
{
    match requests.try_borrow_mut() {
        Ok(mut guard) => (&mut *guard).hold(bytes),
        Err(_) => false,
    }
}

/// Sends all requests that are held. Errors: those of the writer; the requests are in use.
fn send_shared<W: Write>(requests: Lent<'_, Requests>, to: &mut W) -> io::Result<()>
    ensures { OnOk result (SendsRequests (W.contents to.old) (W.contents to.new)) }
{
    let mut guard = requests.try_borrow_mut()?;
    let requests = &mut *guard;
    requests.send(to)
}

/// A writer that holds requests back. It sends all that are held before it writes anything else. The reader of the
/// same connection sends them too.
#[derive(Drop)]
pub struct HoldingWriter<'a, W> {
    inner: W,
    requests: Lent<'a, Requests>,
}

impl<'a, W> Model for HoldingWriter<'a, W> {
    ghost Value = { W };

    ghost view = { λ w. w.inner };
}

impl<'a, W> HoldingWriter<'a, W> {
    /// A writer to `inner`, which holds back in `requests` the requests that are written to it.
    pub fn new(inner: W, requests: Lent<'a, Requests>) -> Self
        ensures { result ≡ inner }
    {
        HoldingWriter { inner, requests }
    }
}

// What lies in a cell no clause knows, so it is not known what the inner writer has got of what was written.
impl<'a, W: Write> Write for HoldingWriter<'a, W> {
    ghost use Rattle.std.specs.Prelude.{None};

    ghost contents = { λ _. None };

    /// Errors: those of the inner writer. Requests that were held and can't be sent are lost, and the connection is
    /// to be closed.
    fn write(&mut self, bytes: &[u8]) -> io::Result<usize>
        ensures bound { WritesAtMost result bytes.now }
        ensures bytes { WriteAppends None None result bytes.now }
        ensures written { IfOk result (λ len. IsHeldOrWritten W.contents self.old bytes.now len
            self.new) }
    {
        if hold_shared(self.requests, bytes) {
            return Ok(bytes.len());
        }
        send_shared(self.requests, &mut self.inner)?;
        self.inner.write(bytes)
    }

    fn flush(&mut self) -> io::Result<()>
        ensures bytes { Keeps None None }
        ensures flushed { Keeps (W.contents self.old) (W.contents self.new) }
    {
        self.inner.flush()
    }
}

/// The reader of a connection. Before it reads, it sends the requests that are held.
#[derive(Drop)]
pub struct SendingReader<'a, S> {
    inner: S,
    requests: Lent<'a, Requests>,
}

impl<'a, S> Model for SendingReader<'a, S> {
    ghost Value = { S };

    ghost view = { λ r. r.inner };
}

impl<'a, S> SendingReader<'a, S> {
    /// A reader of `inner` that first sends the requests that are held in `requests`.
    pub fn new(inner: S, requests: Lent<'a, Requests>) -> Self
        ensures { result ≡ inner }
    {
        SendingReader { inner, requests }
    }
}

// What a connection gives depends on what is sent over it, so it is not known.
impl<'a, S: Read + Write> Read for SendingReader<'a, S> {
    ghost use Rattle.std.specs.Prelude.{None};

    ghost remaining = { λ _. None };

    /// Errors: those of the connection, also where the requests can't be sent: then these are lost, and the
    /// connection is to be closed.
    fn read(&mut self, buffer: &mut [u8]) -> io::Result<usize>
        ensures bound { ReadsAtMost result buffer.new }
        ensures bytes { ReadConsumes None None result buffer.new }
        ensures read { IfOk result (λ count.
            IsReadBehind S.contents S.remaining self.old count buffer.new self.new) }
    {
        send_shared(self.requests, &mut self.inner)?;
        self.inner.read(buffer)
    }
}
