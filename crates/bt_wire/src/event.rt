//! What a cutter gives: a handshake, a message, or the number of an unknown kind; and its errors W1 to W5.
ghost use Rattle.std.specs.Prelude.{◌≡◌};
ghost use Rattle.bt_wire.specs.declared.event.WireError.TheVariants.{OutOfMemory as out_of_memory};

use crate::handshake::Handshake;
use crate::message::Message;
use std::alloc::AllocError;
use thiserror::Error;

/// A handshake or a message of a stream.
#[derive(Debug, Drop)]
pub enum WireEvent {
    /// The handshake, with which a stream begins.
    Hello(Handshake),
    /// A message of a known kind, whose length field fits it.
    Message(Message),
    /// A message of an unknown kind, which is this number.
    Skipped(u8),
}

/// Why a cutter gives no event and takes no bytes.
#[derive(Clone, Copy, Debug, PartialEq, Eq, Error)]
pub enum WireError {
    /// W1: One of the first twenty bytes is not that of the protocol.
    #[error("W1 BadProtocol")]
    BadProtocol,
    /// W2: A length field is above 2^20.
    #[error("W2 TooLong")]
    TooLong,
    /// W3: A length field does not fit the message's kind.
    #[error("W3 BadLength")]
    BadLength,
    /// W4: Out of memory. The call changed nothing.
    #[error("W4 OutOfMemory")]
    OutOfMemory,
    /// W5: An earlier call returned one of W1 to W3.
    #[error("W5 Failed")]
    Failed,
}

impl From<AllocError> for WireError {
    ghost from_gives = { λ _ e. e ≡ out_of_memory };

    fn from(_error: AllocError) -> Self {
        WireError::OutOfMemory
    }
}
