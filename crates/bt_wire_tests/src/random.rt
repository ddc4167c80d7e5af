//! Random calls of a book.

use crate::book::{Requests, came, join, push_all, push_askers};
use crate::bytes::Words;
use crate::held::{Held, ask, ask_all, ask_next, wants};
use bt_book::{BlockId, PeerKey};
use std::alloc::AllocError;
use std::fmt::Write;

/// The numbers of a linear congruential generator, by their upper bits.
#[derive(Drop)]
pub struct Random(u64);

impl Random {
    pub fn new() -> Self {
        Random(1)
    }

    fn below(&mut self, limit: u32) -> u32 {
        self.0 = self
            .0
            .wrapping_mul(6_364_136_223_846_793_005)
            .wrapping_add(1_442_695_040_888_963_407);
        let high = (self.0 >> 33) as u32;
        if limit == 0 { 0 } else { high % limit }
    }

    /// A block of the files 0, 2 and 3: one of 5, of `count`, and of 3.
    fn block(&mut self, count: u32) -> BlockId {
        let (file, count) = [(0, 5), (2, count), (3, 3)][self.below(3) as usize % 3];
        BlockId {
            file,
            block: self.below(count),
        }
    }
}

/// What random calls are like.
#[derive(Clone, Copy)]
pub enum Mix {
    /// Of 70 peers and 78 blocks, of which mostly more than 16 are wanted.
    Many,
    /// Of 8 peers and 26 blocks, of which mostly at most 16 are wanted.
    Few,
}

/// A call of the book.
#[derive(Clone, Copy)]
enum Call {
    Join,
    Lost,
    Choked,
    Want,
    Done,
    Came,
    Ask,
    AskAll,
    Asked,
}

/// Makes as many random calls as a word says. What each answers is told, or a dot, and after it a `+` where a block is
/// wanted that the peer has whose turn it is, of 70.
pub fn random_row(
    random: &mut Random,
    mix: Mix,
    requests: &mut Requests,
    words: &mut Words,
    out: &mut String,
) -> Result<(), AllocError> {
    out.push_str("answers")?;
    for turn in 0..words.number() {
        push_turn(random, mix, requests, Held::Thirds(turn % 70), out)?;
    }
    Ok(())
}

fn push_turn(
    random: &mut Random,
    mix: Mix,
    requests: &mut Requests,
    held: Held,
    out: &mut String,
) -> Result<(), AllocError> {
    out.push_str(" ")?;
    push_answer(random, mix, requests, out)?;
    out.push_str(if wants(requests, held) { "+" } else { "" })
}

fn push_answer(
    random: &mut Random,
    mix: Mix,
    requests: &mut Requests,
    out: &mut String,
) -> Result<(), AllocError> {
    let (peers, blocks) = match mix {
        Mix::Many => (70, 70),
        Mix::Few => (8, 18),
    };
    let key = random.below(peers);
    let peer = PeerKey(u64::from(key));
    let target = random.block(blocks);
    match call_of(random, mix) {
        Call::Join => push_letter(out, join(requests, peer)),
        Call::Came => push_letter(out, came(requests, peer, target)),
        Call::Ask => push_asked(out, any_ask(requests, peer, key)),
        Call::AskAll => push_all(out, ask_all(requests, peer, Held::Thirds(key)).as_slice()),
        Call::Asked => push_askers(out, requests, target),
        call => {
            change(requests, call, peer, target);
            out.push_str(".")
        }
    }
}

fn call_of(random: &mut Random, mix: Mix) -> Call {
    match mix {
        Mix::Many => one_of_many(random.below(16)),
        Mix::Few => one_of_few(random.below(32)),
    }
}

fn one_of_many(choice: u32) -> Call {
    match choice {
        0..=1 => Call::Join,
        2 => Call::Lost,
        3 => Call::Choked,
        4..=7 => Call::Want,
        8 => Call::Done,
        9..=10 => Call::Came,
        _ => Call::Ask,
    }
}

fn one_of_few(choice: u32) -> Call {
    match choice {
        0..=2 => Call::Join,
        3 => Call::Lost,
        4 => Call::Choked,
        5..=7 => Call::Want,
        8..=9 => Call::Done,
        10..=15 => Call::Came,
        16..=25 => Call::Ask,
        26 => Call::AskAll,
        _ => Call::Asked,
    }
}

fn push_letter(out: &mut String, is: bool) -> Result<(), AllocError> {
    out.push_str(if is { "y" } else { "n" })
}

/// A call that answers nothing.
fn change(requests: &mut Requests, call: Call, peer: PeerKey, target: BlockId) {
    if !requests.book.is_in_range(target) {
        return;
    }
    match call {
        Call::Lost => requests.book.lost(peer),
        Call::Choked => requests.book.choked(peer),
        Call::Done => requests.book.done(target),
        _ => requests.book.want(target),
    }
}

/// Which of the two is called makes no difference.
fn any_ask(requests: &mut Requests, peer: PeerKey, key: u32) -> Option<BlockId> {
    if key % 3 == 0 {
        ask(requests, peer, Held::Thirds(key))
    } else {
        ask_next(requests, peer, Held::Thirds(key))
    }
}

fn push_asked(out: &mut String, asked: Option<BlockId>) -> Result<(), AllocError> {
    match asked {
        Some(BlockId { file, block }) => write!(out, "{file}.{block}"),
        None => out.push_str("-"),
    }
}
