//! The program `btseed`: makes torrents of BitTorrent v2 (BEP 52), shows them, checks files against them, serves
//! these to peers and fetches them, and replays scripts of events.
#![tactic(auto)]

use bt_commands::launch;
use std::process::ExitCode;

fn main(rt: HostRuntime) -> ExitCode {
    launch(&rt)
}
