//! What connections are served with.

use bt_progress::Watch;
use bt_sockets::Passage;
use std::net::Net;
use std::time::Clock;

/// By what connections are waited for, whom their calls are told, and what stands between them and the engine that
/// serves them.
#[derive(Drop)]
pub(crate) struct Reception<'a, N: Net + Clock, P: Watch> {
    pub(crate) net: &'a N,
    pub(crate) watch: &'a P,
    pub(crate) listener: &'a N::Listener,
    pub(crate) passage: Passage<'a>,
}
