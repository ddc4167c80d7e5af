//! Calls of a book of requests.

use crate::bytes::{Words, push_yes_or_no};
use crate::held::{ask, ask_all, ask_next, held_from, wants};
use bt_book::{BlockId, Book, PeerKey};
use std::alloc::{AllocError, Global};
use std::fmt::Write;

/// How many files a torrent has at most.
const MOST_FILES: usize = 65_536;

/// A book. Only small functions without a contract look into it, so that no other proof speaks of what it has.
#[derive(Drop)]
pub struct Requests {
    pub book: Book,
}

/// A new book, or a call of the one that is there.
pub fn book_row(
    alloc: Global,
    requests: &mut Requests,
    words: &mut Words,
    out: &mut String,
) -> Result<(), AllocError> {
    match words.word() {
        "new" => new_row(alloc, requests, words, out),
        "full" => full_row(alloc, requests, words, out),
        "want" => want_row(requests, words, out),
        "done" => done_row(requests, words, out),
        "wants" => push_yes_or_no(out, wants(requests, held_from(words))),
        "asked" => push_askers(out, requests, block_from(words)),
        "order" => push_yes_or_no(out, block_from(words) < block_from(words)),
        name => peer_row(requests, name, words, out),
    }
}

fn block_from(words: &mut Words) -> BlockId {
    let file = words.number();
    let block = words.number();
    BlockId { file, block }
}

fn new_row(
    alloc: Global,
    requests: &mut Requests,
    words: &mut Words,
    out: &mut String,
) -> Result<(), AllocError> {
    let mut blocks = Vec::new(alloc);
    push_blocks(&mut blocks, words)?;
    requests.book = Book::new(alloc, &blocks)?;
    out.push_str("a book")
}

/// A book that wants all blocks.
fn full_row(
    alloc: Global,
    requests: &mut Requests,
    words: &mut Words,
    out: &mut String,
) -> Result<(), AllocError> {
    let mut blocks = Vec::new(alloc);
    push_blocks(&mut blocks, words)?;
    if blocks.len() > MOST_FILES {
        return out.push_str("too many files");
    }
    requests.book = Book::wanting_all(alloc, &blocks)?;
    out.push_str("a book")
}

fn push_blocks(blocks: &mut Vec<u32>, words: &mut Words) -> Result<(), AllocError> {
    for _ in 0..u64::MAX {
        if words.is_at_end() {
            break;
        }
        blocks.push(words.number())?;
    }
    Ok(())
}

fn want_row(
    requests: &mut Requests,
    words: &mut Words,
    out: &mut String,
) -> Result<(), AllocError> {
    let block = block_from(words);
    if !requests.book.is_in_range(block) {
        return out.push_str("out of range");
    }
    requests.book.want(block);
    out.push_str("wanted")
}

fn done_row(
    requests: &mut Requests,
    words: &mut Words,
    out: &mut String,
) -> Result<(), AllocError> {
    let block = block_from(words);
    if !requests.book.is_in_range(block) {
        return out.push_str("out of range");
    }
    requests.book.done(block);
    out.push_str("done")
}

/// A call that is about a peer.
fn peer_row(
    requests: &mut Requests,
    name: &str,
    words: &mut Words,
    out: &mut String,
) -> Result<(), AllocError> {
    let peer = PeerKey(words.long());
    match name {
        "join" => push_yes_or_no(out, join(requests, peer)),
        "came" => push_yes_or_no(out, came(requests, peer, block_from(words))),
        "ask" => push_block(out, ask(requests, peer, held_from(words))),
        "next" => push_block(out, ask_next(requests, peer, held_from(words))),
        "all" => push_all(out, ask_all(requests, peer, held_from(words)).as_slice()),
        "lost" => {
            requests.book.lost(peer);
            out.push_str("lost")
        }
        "choked" => {
            requests.book.choked(peer);
            out.push_str("choked")
        }
        _ => {
            words.are_wrong();
            Ok(())
        }
    }
}

pub fn join(requests: &mut Requests, peer: PeerKey) -> bool {
    requests.book.join(peer)
}

pub fn came(requests: &mut Requests, peer: PeerKey, block: BlockId) -> bool {
    requests.book.came(peer, block)
}

fn push_block(out: &mut String, block: Option<BlockId>) -> Result<(), AllocError> {
    match block {
        Some(BlockId { file, block }) => write!(out, "{file} {block}"),
        None => out.push_str("none"),
    }
}

/// Blocks, parted by commas; a dash for none.
pub fn push_all(out: &mut String, blocks: &[BlockId]) -> Result<(), AllocError> {
    if blocks.is_empty() {
        return out.push_str("-");
    }
    for (index, BlockId { file, block }) in blocks.iter().enumerate() {
        out.push_str(if index == 0 { "" } else { "," })?;
        write!(out, "{file}.{block}")?;
    }
    Ok(())
}

/// The keys of the peers that are asked for a block, parted by commas; a dash for none.
pub fn push_askers(
    out: &mut String,
    requests: &Requests,
    block: BlockId,
) -> Result<(), AllocError> {
    let askers = requests.book.asked(block);
    if askers.is_empty() {
        return out.push_str("-");
    }
    for (index, PeerKey(key)) in askers.iter().enumerate() {
        out.push_str(if index == 0 { "" } else { "," })?;
        write!(out, "{key}")?;
    }
    Ok(())
}
