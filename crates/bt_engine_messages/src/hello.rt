//! A handshake that names another torrent closes its peer: it must have the first 20 bytes of the torrent's
//! infohash (BEP 52).
ghost use Rattle.std.specs.Prelude.{◌≡◌};
ghost use Rattle.bt_machine.specs.State.{EngineState};
ghost use Rattle.bt_machine.specs.WireEvents.{HandlesHello};
ghost use Rattle.bt_engine_messages.specs.Message.{closing_if_any};

use bt_machine::Why;
use bt_meta::Torrent;
use bt_wire::Handshake;

/// Why a handshake closes its peer, if it does: it names another torrent.
pub fn hello_fault(torrent: &Torrent, hello: &Handshake) -> Option<Why>
    ensures { (s : EngineState) → s.torrent ≡ torrent.now → HandlesHello s hello.now
        (closing_if_any result) }
{
    let infohash = torrent.infohash();
    if hello.infohash[..] == infohash[..20] {
        None
    } else {
        Some(Why::WrongTorrent)
    }
}
