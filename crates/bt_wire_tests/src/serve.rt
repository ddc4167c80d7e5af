//! The choice of the peers to serve.
ghost use Rattle.std.specs.Prelude.{◌≢◌, All};
ghost use Rattle.std.specs.Bool.{OnTrue};
ghost use Rattle.bt_book.specs.Choking.{HaveOwnKeys};

use crate::bytes::Words;
use bt_book::{PeerKey, Standing, choose};
use std::alloc::{AllocError, Global};
use std::fmt::Write;

/// The peers to serve at a turn, of these standings.
pub fn serve_row(alloc: Global, words: &mut Words, out: &mut String) -> Result<(), AllocError> {
    let turn = words.long();
    let mut standings = Vec::new(alloc);
    push_standings(&mut standings, words)?;
    push_chosen(out, &standings, turn)
}

fn push_chosen(out: &mut String, standings: &[Standing], turn: u64) -> Result<(), AllocError> {
    if !apart(standings) {
        return out.push_str("a peer stands twice");
    }
    let chosen = choose(standings, turn);
    push_keys(out, chosen.as_slice())
}

fn push_keys(out: &mut String, keys: &[PeerKey]) -> Result<(), AllocError> {
    out.push_str("served:")?;
    for key in keys {
        write!(out, " {}", key.0)?;
    }
    Ok(())
}

fn push_standings(standings: &mut Vec<Standing>, words: &mut Words) -> Result<(), AllocError> {
    for _ in 0..u64::MAX {
        if words.is_at_end() {
            break;
        }
        match standing_of(words.word()) {
            Some(standing) => standings.push(standing)?,
            None => words.are_wrong(),
        }
    }
    Ok(())
}

/// A peer's key, whether it is interested, and its bytes, with a colon between them.
fn standing_of(word: &str) -> Option<Standing> {
    let (peer, rest) = word.split_once(':')?;
    let (interested, bytes) = rest.split_once(':')?;
    standing_from(peer, is_yes(interested)?, bytes)
}

fn is_yes(word: &str) -> Option<bool> {
    match word {
        "yes" => Some(true),
        "no" => Some(false),
        _ => None,
    }
}

fn standing_from(peer: &str, interested: bool, bytes: &str) -> Option<Standing> {
    match (peer.parse::<u64>(), bytes.parse::<u64>()) {
        (Ok(peer), Ok(bytes)) => Some(Standing {
            peer: PeerKey(peer),
            interested,
            bytes,
        }),
        _ => None,
    }
}

/// Whether each standing is of another peer.
fn apart(standings: &[Standing]) -> bool
    ensures { OnTrue result (HaveOwnKeys standings.now) }
{
    for (index, standing) in standings.iter().enumerate() {
        if !is_new(&standings[..index], standing.peer) {
            return false;
        }
    }
    true
}

fn is_new(standings: &[Standing], peer: PeerKey) -> bool
    ensures { OnTrue result (All (λ s. s.peer.0 ≢ peer.0) standings.now) }
{
    for standing in standings {
        if standing.peer.0 == peer.0 {
            return false;
        }
    }
    true
}
