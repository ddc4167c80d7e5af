//! The lines that tell how it ended with each peer.
ghost use Rattle.std.specs.Prelude.{◌≡◌, ◌⊎◌, ◌++◌, Ok, Err, true, length, IfErr, OnOk, string_bytes};
ghost use Rattle.std.specs.Io.KnownBytes.{Appends};
ghost use Rattle.bt_check.specs.Fault.{device, out_of_memory};
ghost use Rattle.bt_together.specs.PeerLines.{is_tried, peer_line, peer_lines, peer_text};

use bt_check::{Fault, display_name, print};
use bt_session::{PeerEnd, end_text};
use bt_words::Peer;
use std::alloc::{AllocError, Global};
use std::io::Write;

/// Writes the line of a peer, if it was tried: its host and port, and how it ended. `before` tells how that went for
/// the lines before. Where one of these could not be written, nothing is, and its fault is given again.
pub fn tell_peer<W: Write>(
    alloc: Global,
    before: Result<(), Fault>,
    peer: &Peer<'_>,
    end: PeerEnd,
    writer: &mut W,
) -> Result<(), Fault>
    ensures before { OnOk result (before ≡ Ok tt) }
    ensures text { OnOk result
        (Appends (W.contents writer.old) (W.contents writer.new) (peer_text peer.now end)) }
    ensures fault { IfErr result
        (λ fault. (fault ≡ device) ⊎ (fault ≡ out_of_memory) ⊎ (before ≡ Err fault)) }
{
    before?;
    write_peer(alloc, peer, end, writer)
}

/// Writes the line of a peer, if it was tried. Errors: the writer failed, or out of memory.
fn write_peer<W: Write>(
    alloc: Global,
    peer: &Peer<'_>,
    end: PeerEnd,
    writer: &mut W,
) -> Result<(), Fault>
    ensures text { OnOk result
        (Appends (W.contents writer.old) (W.contents writer.new) (peer_text peer.now end)) }
    ensures fault { IfErr result (λ fault. (fault ≡ device) ⊎ (fault ≡ out_of_memory)) }
{
    let mut line = String::new(alloc);
    if is_tried(end) {
        push_line(alloc, &mut line, peer, end)?;
    }
    print(writer, line.as_str())
}

/// Writes the lines of all peers that were tried, in their order. Errors: the writer failed, or out of memory.
pub fn tell_peers<W: Write>(
    alloc: Global,
    peers: &[Peer<'_>],
    ends: &[PeerEnd],
    writer: &mut W,
) -> Result<(), Fault>
    requires each { length ends.now ≡ length peers.now }
    ensures text { OnOk result
        (Appends (W.contents writer.old) (W.contents writer.new) (peer_lines peers.now ends.now)) }
    ensures fault { IfErr result (λ fault. (fault ≡ device) ⊎ (fault ≡ out_of_memory)) }
{
    for (i, peer) in peers.iter().enumerate() {
        write_peer(alloc, peer, ends[i], writer)?;
    }
    Ok(())
}

fn is_tried(end: PeerEnd) -> bool
    ensures { result ≡ is_tried end }
{
    match end {
        PeerEnd::Untried => false,
        PeerEnd::Unreachable | PeerEnd::Refused(_) | PeerEnd::Session(_) => true,
    }
}

/// Adds the line of a peer to a text. Its host may be a stranger's word, so it is printed as a name is. Errors: out
/// of memory.
fn push_line(
    alloc: Global,
    line: &mut String,
    peer: &Peer<'_>,
    end: PeerEnd,
) -> Result<(), AllocError>
    ensures { OnOk result (string_bytes line.new ≡ string_bytes line.old
        ++ peer_line peer.now end) }
{
    use std::fmt::Write;
    let Peer { host, port } = *peer;
    let host = display_name(alloc, host.as_bytes())?;
    let end = end_text(end);
    writeln!(line, "peer {host}:{port} {end}")
}
