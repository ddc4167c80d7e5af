//! The other side of a transfer: peers to fetch from, and connections to serve.

/// Where a peer is reached.
#[derive(Clone, Copy, Debug, PartialEq, Eq)]
pub struct Peer<'a> {
    /// A name or an address, of one byte or more.
    pub host: &'a str,
    pub port: u16,
}

/// How many connections are served, and how many of them at once.
#[derive(Clone, Copy, Debug, PartialEq, Eq)]
pub enum Serving {
    /// This many, one after the other.
    Count(u32),
    /// This many, up to 64 of them at once.
    Together(u32),
    /// All that come, up to 64 of them at once, until the program is ended.
    Forever,
}

/// Where connections are waited for, how many are served, and whether files may be written for them.
#[derive(Clone, Copy, Debug, PartialEq, Eq)]
pub struct Service<'a> {
    /// The address of this machine at which it listens.
    pub address: &'a str,
    /// With 0 the system chooses one.
    pub port: u16,
    pub serving: Serving,
    /// Whether files are only read, and none is made.
    pub is_read_only: bool,
}
