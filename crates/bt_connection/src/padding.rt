//! What is remembered of a peer that counts each block as 16,384 bytes, and which messages stand for those of the
//! peer and of its engine.
ghost use Rattle.std.specs.Prelude.{◌≡◌, IfOk, IfSome, IfNone, Contains};
ghost use Rattle.bt_wire.specs.Frames.{IsFrame};
ghost use Rattle.bt_connection.specs.Padding.{new_memory, with_asked, without};
ghost use Rattle.bt_connection.specs.PaddingSteps.{IsFirstAt};
ghost use Rattle.bt_connection.specs.Translation.{Gives};
ghost use Rattle.bt_connection.specs.declared.translation.Side.TheVariants.{Peer, Engine};

use crate::frame::BLOCK_FIELD;
use crate::lent::Renew;
use crate::short_blocks::ShortBlocks;
use crate::translation::FrameRoom;
use bt_tree::BLOCK_LEN;
use bt_wire::frames::{PIECE_HEAD_LEN, read_piece, read_request};
use bt_wire::{Ask, streams_have_one_reading};
use std::alloc::{AllocError, Global};
use std::marker::Model;

/// How many requests are remembered at most.
const MAX_REMEMBERED: usize = 1024;

/// The requests of a peer for padded blocks that are not answered yet, each with the length that it was given on
/// with. A request that the engine ignores, as while the peer is choked, stays until the peer next asks for that
/// block.
#[derive(Drop)]
pub struct Padding {
    /// The requests, from the oldest on.
    asked: Vec<Ask>,
}

impl Model for Padding {
    ghost use Rattle.std.specs.Prelude.{◌≤◌, length, vec_capacity};
    ghost use Rattle.bt_connection.specs.Padding.{Memory};
    ghost use Rattle.bt_connection.specs.declared.padding.TheConstants.{MAX_REMEMBERED};

    ghost Value = { Memory };

    ghost view = { λ p. p.asked.items };

    ghost invariant = { λ p.
        (length p.asked.items ≤ MAX_REMEMBERED) × (MAX_REMEMBERED ≤ vec_capacity p.asked) };
}

impl Padding {
    /// A padding that remembers nothing yet. All the memory that it ever takes is taken here. Errors: out of memory.
    pub fn new(alloc: Global) -> Result<Self, AllocError>
        ensures { IfOk result (λ padding. padding ≡ new_memory) }
    {
        let asked = Vec::with_capacity(alloc, MAX_REMEMBERED)?;
        Ok(Padding { asked })
    }

    /// Puts in the place of a frame of the peer what the engine gets for it. Where the peer asks for a short block,
    /// what was remembered for this block is forgotten.
    pub(crate) fn incoming(&mut self, blocks: &ShortBlocks, frame: &mut FrameRoom)
        ensures { Gives blocks.now Peer self.old frame.old frame.new self.new }
    {
        streams_have_one_reading();
        let Some(ask) = read_request(frame.as_slice()) else {
            return;
        };
        let Some(short) = blocks.at(ask.piece, ask.begin) else {
            return;
        };
        // A session writes all answers before it reads on, so a request for this block that still is remembered is
        // ignored for good. Its padding must not go to this one.
        if ask.length == BLOCK_LEN as u32 {
            self.take_back(short);
            self.remember(short);
            frame.put(PIECE_HEAD_LEN, &short.length.to_be_bytes());
        } else if ask.length == short.length {
            self.take_back(short);
        }
    }

    /// Puts in the place of a frame of the engine what the peer gets for it.
    pub(crate) fn outgoing(&mut self, blocks: &ShortBlocks, frame: &mut FrameRoom)
        requires { IsFrame frame.old }
        ensures { Gives blocks.now Engine self.old frame.old frame.new self.new }
    {
        streams_have_one_reading();
        let Some(ask) = read_piece(frame.as_slice()) else {
            return;
        };
        if let Some(index) = self.answered(blocks, ask) {
            self.asked.remove(index);
            frame.fill();
            frame.put(0, &(BLOCK_FIELD as u32).to_be_bytes());
        }
    }

    /// The index of the first remembered request that a piece with this range answers. None where it answers none, or
    /// is no short block.
    fn answered(&self, blocks: &ShortBlocks, ask: Ask) -> Option<usize>
        ensures first { IfSome result (IsFirstAt self.now ask) }
        ensures short { IfSome result (λ _. Contains blocks.now ask) }
        ensures none { IfNone result (Contains self.now ask → ¬ Contains blocks.now ask) }
    {
        // No other is remembered, but the contract does not lean on that.
        let short = blocks.at(ask.piece, ask.begin)?;
        if short.length != ask.length {
            return None;
        }
        self.asked.iter().position(|other| *other == ask)
    }

    /// Forgets a request, however often it is remembered.
    fn take_back(&mut self, ask: Ask)
        ensures { self.new ≡ without self.old ask }
    {
        self.asked.retain(|other| *other != ask);
    }

    /// Remembers a request. Where as many are remembered as may be, the oldest is forgotten.
    fn remember(&mut self, ask: Ask)
        ensures { self.new ≡ with_asked self.old ask }
    {
        if self.asked.len() >= MAX_REMEMBERED {
            self.asked.remove(0);
        }
        // There is room.
        let _ = self.asked.push(ask);
    }
}

impl Renew for Padding {
    ghost use Rattle.std.specs.Prelude.{◌≡◌};
    ghost use Rattle.bt_connection.specs.Padding.{new_memory};

    ghost is_new = { λ p. p ≡ new_memory };

    fn renew(&mut self) {
        self.asked.clear();
    }
}
