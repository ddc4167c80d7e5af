//! The buffers of a session: one for what it reads at a time, and a list of bytes for what it writes.
use crate::incoming::Incoming;
use std::alloc::{AllocError, Global};

/// What a session reads into, and spells frames into.
#[derive(Drop)]
pub(crate) struct SessionBuffers {
    pub(crate) alloc: Global,
    pub(crate) incoming: Incoming,
    pub(crate) outgoing: Vec<u8>,
}

impl SessionBuffers {
    /// Errors: out of memory.
    pub(crate) fn new(alloc: Global) -> Result<Self, AllocError> {
        let incoming = Incoming::new(alloc)?;
        Ok(SessionBuffers {
            alloc,
            incoming,
            outgoing: Vec::new(alloc),
        })
    }
}
