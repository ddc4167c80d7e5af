//! What a session reads into, and what is fed of that.
ghost use Rattle.std.specs.Prelude.{◌≡◌, ◌<◌, ◌≤◌, length, take, IfOk, IfErr, OnErr};
ghost use Rattle.std.specs.Io.KnownBytes.{Keeps};
ghost use Rattle.bt_machine.specs.declared.error.EngineError.TheVariants.{OutOfMemory};
ghost use Rattle.bt_machine.specs.declared.event.Event.TheVariants.{Feed};
ghost use Rattle.bt_machine.specs.declared.event.Answer.TheVariants.{Fed};
ghost use Rattle.bt_machine.specs.View.{StepsTo};
ghost use Rattle.bt_session.specs.declared.end.SessionEnd.TheVariants.{ReadFault};
ghost use Rattle.bt_session.specs.Session.{read_length};
ghost use Rattle.bt_session.specs.Parts.{IsGiven};
ghost use Rattle.bt_session.specs.PeerSteps.{IsAlone};

use crate::calls::feed;
use crate::end::SessionEnd;
use crate::watched::WatchedReader;
use bt_book::PeerKey;
use bt_disk::Disk;
use bt_engine::Engine;
use bt_machine::EngineError;
use bt_tree::NodeHash;
use std::alloc::{AllocError, Global};
use std::io::ErrorKind;
use std::marker::Model;

/// How many bytes a reader is asked for at a time.
const READ_LEN: usize = 16384;

/// A buffer of 16,384 bytes. Its memory is exchanged for that of the engine, where this spares a copy.
#[derive(Drop)]
pub(crate) struct Incoming {
    bytes: Vec<u8>,
}

impl Model for Incoming {
    ghost use Rattle.std.specs.Prelude.{◌≡◌, ℕ, List, length};
    ghost use Rattle.bt_session.specs.Session.{read_length};

    ghost Value = { List ℕ };

    ghost view = { λ a. a.bytes.items };

    ghost invariant = { λ a. length a.bytes.items ≡ read_length };
}

impl Incoming {
    /// A buffer of zeros. Errors: out of memory.
    pub(crate) fn new(alloc: Global) -> Result<Self, AllocError> {
        let bytes = Vec::from_elem(alloc, 0, READ_LEN)?;
        Ok(Incoming { bytes })
    }

    /// Reads once into the buffer, as `read_some`.
    pub(crate) fn read<R: WatchedReader>(&mut self, reader: &mut R) -> Result<usize, SessionEnd>
        ensures given { IfOk result (λ count. IsGiven (R.remaining reader.old)
            (R.remaining reader.new) count self.new) }
        ensures whole { length self.new ≡ read_length }
        ensures kept { OnErr result (Keeps (R.remaining reader.old) (R.remaining reader.new)) }
        ensures fault { IfErr result (λ end. end ≡ ReadFault) }
        ensures failed { OnErr result (R.has_failed reader.new) }
    {
        read_some(reader, self.bytes.as_mut_slice())
    }

    /// Feeds the first `count` bytes of the buffer, all or none, which are the peer's. Afterwards the buffer
    /// may hold other bytes. Errors: out of memory.
    pub(crate) fn feed<D: Disk + Drop, H: NodeHash>(
        &mut self,
        engine: &mut Engine<D, H>,
        key: PeerKey,
        count: usize,
    ) -> Result<(), EngineError>
        requires alone { IsAlone key engine.old.state }
        requires within { count ≤ length self.old }
        ensures step { StepsTo D.conduct H.digest engine.old
            (Feed key (take count self.old)) (Fed result) engine.new }
        ensures alone { IsAlone key engine.new.state }
        ensures refused { IfErr result (λ error. error ≡ OutOfMemory) }
    {
        let fed = feed(engine, key, &mut self.bytes, count);
        // What came in exchange may be longer. Then the engine's own would have to be so long the next time.
        self.bytes.truncate(READ_LEN);
        fed
    }
}

/// Reads once, and says how many bytes came: none where there are no more. A read that was interrupted is
/// made again. Errors: ReadFault, and none of the reader's bytes is lost.
fn read_some<R: WatchedReader>(reader: &mut R, buffer: &mut [u8]) -> Result<usize, SessionEnd>
    requires some { 0 < length buffer.old }
    ensures given { IfOk result (λ count. IsGiven (R.remaining reader.old)
        (R.remaining reader.new) count
        buffer.new) }
    ensures kept { OnErr result (Keeps (R.remaining reader.old) (R.remaining reader.new)) }
    ensures fault { IfErr result (λ end. end ≡ ReadFault) }
    ensures failed { OnErr result (R.has_failed reader.new) }
{
    // A bound, so that it ends whatever the system gives.
    for _ in 0..u64::MAX {
        match reader.read_once(buffer) {
            Ok(count) => return Ok(count),
            Err(error) if error.kind() == ErrorKind::Interrupted => {}
            Err(_) => return Err(SessionEnd::ReadFault),
        }
    }
    Err(SessionEnd::ReadFault)
}
