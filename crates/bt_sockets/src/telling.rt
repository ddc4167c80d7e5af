//! What is told of connections beside results: at a terminal, and where that was asked for. Where memory is short, it is
//! not told.

use bt_progress::Watch;
use std::alloc::{AllocError, Global};
use std::io::ErrorKind;
use std::net::{OpenListener, SocketAddr};
use std::time::{Clock, Instant};

/// Tells that a peer is dialled.
pub fn tell_dial<P: Watch>(alloc: Global, watch: &P, host: &str, port: u16) {
    if !watch.is_verbose() {
        return;
    }
    if let Ok(text) = format!(in alloc; "connecting to {host}:{port}") {
        watch.hint(text.as_str());
    }
}

/// Tells that a peer is not reached, and why.
pub fn tell_failure<P: Watch>(alloc: Global, watch: &P, host: &str, port: u16, kind: ErrorKind) {
    if !watch.is_verbose() {
        return;
    }
    let reason = reach_reason(kind);
    if let Ok(text) = format!(in alloc; "cannot connect to {host}:{port}: {reason}") {
        watch.hint(text.as_str());
    }
}

/// Why a peer is not reached, in words. A look-up that finds no address has no kind of its own.
fn reach_reason(kind: ErrorKind) -> &'static str {
    match kind {
        ErrorKind::Uncategorized => "no address is known of this host",
        ErrorKind::ConnectionRefused => "connection refused",
        ErrorKind::TimedOut => "no answer",
        ErrorKind::HostUnreachable => "no route to host",
        ErrorKind::NetworkUnreachable => "network is unreachable",
        _ => "the system can't connect",
    }
}

/// Tells the address at which connections are waited for.
pub fn tell_address<P: Watch, L: OpenListener>(alloc: Global, watch: &P, listener: &L) {
    if !watch.is_verbose() {
        return;
    }
    if let Ok(address) = listener.local_addr() {
        if let Ok(text) = format!(in alloc; "listening at {address}") {
            watch.hint(text.as_str());
        }
    }
}

/// Tells that a connection has come.
pub fn tell_arrival<P: Watch>(alloc: Global, watch: &P, address: SocketAddr) {
    if !watch.is_verbose() {
        return;
    }
    if let Ok(text) = format!(in alloc; "{address}: connected") {
        watch.hint(text.as_str());
    }
}

/// Tells of a connection that is over who it was, how many bytes were sent to it, and how long it was there.
pub fn tell_visit<P: Watch, C: Clock>(
    alloc: Global,
    watch: &P,
    clock: &C,
    address: SocketAddr,
    sent: u64,
    begun: Option<Instant>,
) {
    if !watch.is_verbose() {
        return;
    }
    let seconds = seconds_since(clock, begun);
    if let Ok(text) = format!(in alloc; "{address}: {sent} bytes sent in {seconds} s") {
        watch.hint(text.as_str());
    }
}

/// How many whole seconds have passed since a moment: 0 where the clock fails.
fn seconds_since<C: Clock>(clock: &C, begun: Option<Instant>) -> u64 {
    match (begun, Instant::now(clock)) {
        (Some(begun), Ok(now)) => now.duration_since(begun).as_secs(),
        _ => 0,
    }
}
