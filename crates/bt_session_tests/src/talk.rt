//! A conversation of a peer with its engine.

use crate::bytes::tell_given;
use crate::ends::{Queue, Sink, Source};
use crate::notes::Untold;
use bt_connection::{AheadRoom, FrameRoom, Lent, Padded, Padding, ReadAhead, ShortBlocks, Side};
use bt_devices::DigestCache;
use bt_meta::Torrent;
use bt_rows::{RowError, Words};
use std::alloc::{AllocError, Global};
use std::cell::RefCell;
use std::collections::VecDeque;
use std::io::{self, Read, Write};

/// What is given on of a conversation whose bytes come all at once, which has to be the same where they come
/// one by one.
pub fn talk_row(alloc: Global, torrent: &Torrent, words: &mut Words) -> Result<String, RowError> {
    let mut again = *words;
    let whole = talk(alloc, torrent, words, true)?;
    let one_by_one = talk(alloc, torrent, &mut again, false)?;
    Ok(one_text(alloc, whole, one_by_one.as_str())?)
}

/// The one text that two are.
fn one_text(alloc: Global, whole: String, one_by_one: &str) -> Result<String, AllocError> {
    if whole.as_str() != one_by_one {
        return format!(in alloc; "{whole}, or one by one {one_by_one}");
    }
    Ok(whole)
}

/// The bytes of both sides, on their way.
#[derive(Drop)]
struct Line {
    from_peer: Queue,
    to_peer: Queue,
    digests: RefCell<DigestCache>,
    observer: Untold,
    ahead: RefCell<AheadRoom>,
    incoming: RefCell<FrameRoom>,
    outgoing: RefCell<FrameRoom>,
}

impl Line {
    fn new(alloc: Global) -> Result<Line, AllocError> {
        Ok(Line {
            from_peer: RefCell::new(VecDeque::new(alloc)),
            to_peer: RefCell::new(VecDeque::new(alloc)),
            digests: RefCell::new(DigestCache::new(alloc)?),
            observer: Untold,
            ahead: RefCell::new(AheadRoom::new(alloc)?),
            incoming: RefCell::new(FrameRoom::new(alloc)?),
            outgoing: RefCell::new(FrameRoom::new(alloc)?),
        })
    }
}

fn talk(
    alloc: Global,
    torrent: &Torrent,
    words: &mut Words,
    whole: bool,
) -> Result<String, RowError> {
    let padding = RefCell::new(Padding::new(alloc)?);
    let blocks = ShortBlocks::new(alloc, torrent)?;
    let line = Line::new(alloc)?;
    let mut text = String::new(alloc);
    let mut conversation = new_conversation(&blocks, &line, &padding, whole)?;
    conversation.steps(alloc, words, &mut text)?;
    Ok(text)
}

fn new_conversation<'a>(
    blocks: &'a ShortBlocks,
    line: &'a Line,
    padding: &'a RefCell<Padding>,
    whole: bool,
) -> io::Result<Conversation<'a>> {
    let source = Source {
        queue: &line.from_peer,
        most: if whole { usize::MAX } else { 1 },
    };
    let sink = Sink {
        queue: &line.to_peer,
    };
    let ahead = line.ahead.try_borrow_mut()?;
    let incoming = line.incoming.try_borrow_mut()?;
    let outgoing = line.outgoing.try_borrow_mut()?;
    let remembered = Lent::new(padding)?;
    let read = ReadAhead::new(source, &line.digests, &line.observer, ahead);
    Ok(Conversation {
        reader: Padded::new(Side::Peer, read, blocks, remembered, incoming),
        writer: Padded::new(Side::Engine, sink, blocks, remembered, outgoing),
        line,
        padding,
        whole,
    })
}

/// The two ends of a conversation, whose bytes come all at once, or one by one.
#[derive(Drop)]
struct Conversation<'a> {
    reader: Padded<'a, ReadAhead<'a, Source<'a>, Untold>>,
    writer: Padded<'a, Sink<'a>>,
    line: &'a Line,
    padding: &'a RefCell<Padding>,
    whole: bool,
}

impl Conversation<'_> {
    fn steps(
        &mut self,
        alloc: Global,
        words: &mut Words,
        text: &mut String,
    ) -> Result<(), RowError> {
        for _ in 0..u64::MAX {
            if words.is_at_end() {
                break;
            }
            self.step(alloc, words, text)?;
        }
        Ok(())
    }

    fn step(
        &mut self,
        alloc: Global,
        words: &mut Words,
        text: &mut String,
    ) -> Result<(), RowError> {
        let given = match words.word() {
            "peer" => self.received(alloc, words)?,
            "engine" => self.sent(alloc, words)?,
            "forget" => self.forgotten(alloc)?,
            _ => return Err(RowError::Unread),
        };
        Ok(push(alloc, text, &given)?)
    }

    /// What an engine gets of bytes of its peer.
    fn received(&mut self, alloc: Global, words: &mut Words) -> Result<Vec<u8>, RowError> {
        let bytes = words.bytes(alloc)?;
        put(&self.line.from_peer, &bytes)?;
        Ok(all_of(alloc, &mut self.reader)?)
    }

    /// What a peer gets of bytes of its engine.
    fn sent(&mut self, alloc: Global, words: &mut Words) -> Result<Vec<u8>, RowError> {
        let bytes = words.bytes(alloc)?;
        put_into(&mut self.writer, &bytes, self.whole)?;
        Ok(taken(alloc, &self.line.to_peer)?)
    }

    /// Has what is remembered made new, as for another peer.
    fn forgotten(&self, alloc: Global) -> Result<Vec<u8>, RowError> {
        match Lent::new(self.padding) {
            Ok(_) => Ok(Vec::new(alloc)),
            Err(_) => Err(RowError::Failed),
        }
    }
}

/// Puts bytes on their way.
fn put(queue: &Queue, bytes: &[u8]) -> io::Result<()> {
    let mut guard = queue.try_borrow_mut()?;
    let queue = &mut *guard;
    queue.write_all(bytes)
}

/// Takes the bytes that are on their way.
fn taken(alloc: Global, queue: &Queue) -> io::Result<Vec<u8>> {
    let mut guard = queue.try_borrow_mut()?;
    let queue = &mut *guard;
    all_of(alloc, queue)
}

fn all_of<R: Read>(alloc: Global, reader: &mut R) -> io::Result<Vec<u8>> {
    let mut given = Vec::new(alloc);
    reader.read_to_end(&mut given)?;
    Ok(given)
}

fn put_into<W: Write>(writer: &mut W, bytes: &[u8], whole: bool) -> io::Result<()> {
    if whole {
        writer.write_all(bytes)?;
    } else {
        put_each(writer, bytes)?;
    }
    writer.flush()
}

fn put_each<W: Write>(writer: &mut W, bytes: &[u8]) -> io::Result<()> {
    for byte in bytes {
        writer.write_all(&[*byte])?;
    }
    Ok(())
}

fn push(alloc: Global, text: &mut String, given: &[u8]) -> Result<(), AllocError> {
    if !text.is_empty() {
        text.push_str(" ")?;
    }
    tell_given(alloc, text, given)
}
