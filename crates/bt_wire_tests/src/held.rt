//! Which blocks a peer has.

use crate::book::Requests;
use crate::bytes::Words;
use arrayvec::ArrayVec;
use bt_book::{BlockId, MAX_REQUESTS, PeerKey};

/// The blocks of a peer.
#[derive(Clone, Copy)]
pub enum Held {
    All,
    None,
    /// The blocks of one file.
    File(u32),
    /// The blocks of each file from this number on.
    Rest(u32),
    /// All where this number is even, else two of three of the files of random calls.
    Thirds(u32),
}

/// How many blocks each file has where calls are random.
const FILES: [(u32, u32); 4] = [(0, 5), (1, 0), (2, 70), (3, 3)];

pub fn held_from(words: &mut Words) -> Held {
    match words.word() {
        "all" => Held::All,
        "none" => Held::None,
        "file" => Held::File(words.number()),
        "rest" => Held::Rest(words.number()),
        "thirds" => Held::Thirds(words.number()),
        _ => {
            words.are_wrong();
            Held::None
        }
    }
}

/// Whether the peer has a block.
fn has(held: Held, block: BlockId) -> bool {
    match held {
        Held::All => true,
        Held::None => false,
        Held::File(file) => block.file == file,
        Held::Rest(first) => block.block >= first,
        Held::Thirds(number) => is_in_thirds(number, block),
    }
}

fn is_in_thirds(number: u32, block: BlockId) -> bool {
    number % 2 == 0 || (block.file ^ block.block) % 3 != number % 3
}

/// The first block from one on that the peer has.
fn next(held: Held, from: BlockId) -> Option<BlockId> {
    match held {
        Held::All => Some(from),
        Held::None => None,
        Held::File(file) => next_of_file(file, from),
        Held::Rest(first) => Some(BlockId {
            file: from.file,
            block: from.block.max(first),
        }),
        Held::Thirds(number) => next_in_thirds(number, from),
    }
}

fn next_of_file(file: u32, from: BlockId) -> Option<BlockId> {
    let first = BlockId { file, block: 0 };
    if from <= first {
        Some(first)
    } else if from.file == file {
        Some(from)
    } else {
        None
    }
}

fn next_in_thirds(number: u32, from: BlockId) -> Option<BlockId> {
    for (file, count) in FILES {
        for index in 0..count {
            let block = BlockId { file, block: index };
            if from <= block && is_in_thirds(number, block) {
                return Some(block);
            }
        }
    }
    None
}

/// Asks a peer, block by block.
pub fn ask(requests: &mut Requests, peer: PeerKey, held: Held) -> Option<BlockId> {
    requests.book.ask(peer, |block| has(held, block))
}

/// Asks a peer, by leaps over what it lacks.
pub fn ask_next(requests: &mut Requests, peer: PeerKey, held: Held) -> Option<BlockId> {
    requests.book.ask_next(peer, |from| next(held, from))
}

/// Asks a peer for as many blocks as may be.
pub fn ask_all(
    requests: &mut Requests,
    peer: PeerKey,
    held: Held,
) -> ArrayVec<BlockId, MAX_REQUESTS> {
    requests.book.ask_all(peer, |from| next(held, from))
}

/// Whether a block is wanted that such a peer has.
pub fn wants(requests: &Requests, held: Held) -> bool {
    requests.book.wants(|from| next(held, from))
}
