//! The buffers of a swarm: one for what is read of a connection at a time, and a list of bytes for what it is sent.
use std::alloc::Global;

/// How many bytes a reader is asked for.
pub(crate) const READ_LENGTH: usize = 16_384;

/// What a swarm reads into, and spells frames into, of one connection after the other.
#[derive(Drop)]
pub(crate) struct SwarmBuffers {
    pub(crate) alloc: Global,
    pub(crate) incoming: [u8; READ_LENGTH],
    pub(crate) outgoing: Vec<u8>,
}

impl SwarmBuffers {
    pub(crate) fn new(alloc: Global) -> Self {
        SwarmBuffers {
            alloc,
            incoming: [0; READ_LENGTH],
            outgoing: Vec::new(alloc),
        }
    }
}
