//! The events, each by its line.

use bt_engine::PeerKey;
use bt_machine::Event;
use bt_rows::bytes_of;
use bt_wire::Bytes;
use std::alloc::{AllocError, Global};

/// The event of a line; None where it is none.
pub fn event_of(alloc: Global, name: &str, rest: &str) -> Result<Option<Event>, AllocError> {
    let (first, second) = rest.split_once(' ').unwrap_or((rest, ""));
    let key = PeerKey(first.parse().unwrap_or(0));
    match name {
        "connect" => Ok(Some(Event::Connect)),
        "feed" => feed_of(alloc, key, second),
        "next" => Ok(Some(Event::Next(key))),
        "lost" => Ok(Some(Event::Lost(key))),
        "rechoke" => Ok(Some(Event::Rechoke)),
        "adopt" => Ok(Some(Event::Adopt(first.parse().unwrap_or(u32::MAX)))),
        "flush" => Ok(Some(Event::Flush)),
        "restart" => Ok(Some(Event::Restart)),
        _ => Ok(None),
    }
}

fn feed_of(alloc: Global, key: PeerKey, word: &str) -> Result<Option<Event>, AllocError> {
    match bytes_of(alloc, word)? {
        Some(bytes) => Ok(Some(Event::Feed(key, Bytes::new(bytes)))),
        None => Ok(None),
    }
}

/// The bytes of a peer one by one, and after each that the next wire event is taken; None where the words say no bytes.
pub fn byte_events(alloc: Global, rest: &str) -> Result<Option<Vec<Event>>, AllocError> {
    let (first, second) = rest.split_once(' ').unwrap_or((rest, ""));
    let key = PeerKey(first.parse().unwrap_or(0));
    match bytes_of(alloc, second)? {
        Some(bytes) => Ok(Some(events_of(alloc, key, &bytes)?)),
        None => Ok(None),
    }
}

fn events_of(alloc: Global, key: PeerKey, bytes: &[u8]) -> Result<Vec<Event>, AllocError> {
    let mut events = Vec::new(alloc);
    for byte in bytes {
        push_byte(alloc, &mut events, key, *byte)?;
    }
    Ok(events)
}

fn push_byte(
    alloc: Global,
    events: &mut Vec<Event>,
    key: PeerKey,
    byte: u8,
) -> Result<(), AllocError> {
    let one = vec![in alloc; byte; 1]?;
    events.push(Event::Feed(key, Bytes::new(one)))?;
    events.push(Event::Next(key))?;
    Ok(())
}
