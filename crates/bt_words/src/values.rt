//! What single words of the command line stand for: numbers, addresses and peers.
ghost use Rattle.std.specs.Prelude.{ℕ, IfSome, IfNone};
ghost use Rattle.std.specs.Bool.{Decides};
ghost use Rattle.bt_parts.specs.declared.cut.Part.{Part as PartOf};
ghost use Rattle.bt_words.specs.Values.{IsAddress, IsJobs, IsNumber, IsPartWord, IsPeerWord};

use crate::peer::Peer;
use bt_parts::{MAX_PARTS, Part};
use std::net::IpAddr;

/// The number of 32 bits that decimal digits write, if it fits. Leading zeros are allowed, a sign is not.
pub fn number_in(text: &str) -> Option<u32>
    ensures some { IfSome result (IsNumber 32 text.now) }
    ensures none { IfNone result ((n : ℕ) → ¬ IsNumber 32 text.now n) }
{
    if text.starts_with('+') {
        return None;
    }
    text.parse::<u32>().ok()
}

/// How many processes decimal digits ask for: from 1 to 64.
pub fn jobs_in(text: &str) -> Option<u32>
    ensures some { IfSome result (IsJobs text.now) }
    ensures none { IfNone result ((n : ℕ) → ¬ IsJobs text.now n) }
{
    let count = number_in(text)?;
    if count == 0 || count > MAX_PARTS {
        return None;
    }
    Some(count)
}

/// The part of a check that a word `I/N` names.
pub fn part_in(word: &str) -> Option<Part>
    ensures some { IfSome result (IsPartWord word.now) }
    ensures none { IfNone result ((part : PartOf) → ¬ IsPartWord word.now part) }
{
    let (first, second) = word.rsplit_once('/')?;
    let index = number_in(first)?;
    let count = number_in(second)?;
    Part::new(index, count)
}

/// The port, a number of 16 bits, that decimal digits write, if it fits. Leading zeros are allowed, a sign is not.
pub fn port_in(text: &str) -> Option<u16>
    ensures some { IfSome result (IsNumber 16 text.now) }
    ensures none { IfNone result ((n : ℕ) → ¬ IsNumber 16 text.now n) }
{
    if text.starts_with('+') {
        return None;
    }
    text.parse::<u16>().ok()
}

/// Whether a text is an IPv4 or IPv6 address.
pub fn is_address(text: &str) -> bool
    ensures { Decides result (IsAddress text.now) }
{
    text.parse::<IpAddr>().is_ok()
}

/// The peer that a word `A:P` names.
pub fn peer_in(word: &str) -> Option<Peer<'_>>
    ensures some { IfSome result (IsPeerWord word.now) }
    ensures none { IfNone result ((peer : Peer) → ¬ IsPeerWord word.now peer) }
{
    let (host, digits) = word.rsplit_once(':')?;
    if host.is_empty() {
        return None;
    }
    let port = port_in(digits)?;
    Some(Peer { host, port })
}
