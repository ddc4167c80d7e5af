//! Frames of one peer, put after those that are to be sent.
ghost use Rattle.std.specs.Prelude.{◌≡◌, ◌+◌, ◌<◌, ◌≤◌, ◌++◌, length, vec_len, vec_capacity};
ghost use Rattle.std.specs.List.{All};
ghost use Rattle.bt_meta.specs.PieceBlocks.{HasBlock};
ghost use Rattle.bt_machine.specs.Spans.{IsRangeOf};
ghost use Rattle.bt_engine_after.specs.SendingSteps.{frames_of, AreRequestsSent};

use bt_book::{BlockId, PeerKey};
use bt_machine::Frame;
use bt_meta::Torrent;
use bt_wire::{Ask, Message};

/// Puts a message after them, where there is one.
pub(crate) fn send_message(send: &mut Vec<(PeerKey, Frame)>, key: PeerKey, message: Option<Message>)
    requires room { vec_len send.old < vec_capacity send.old }
    ensures sent { send.new.items ≡ send.old.items ++ frames_of key message }
    ensures few { vec_len send.new ≤ vec_len send.old + 1 }
    ensures capacity { vec_capacity send.old ≤ vec_capacity send.new }
{
    if let Some(message) = message {
        send.push((key, Frame::Message(message))).unwrap();
    }
}

/// Puts a request of each block after them, in the order of the blocks.
pub(crate) fn send_requests(
    send: &mut Vec<(PeerKey, Frame)>,
    key: PeerKey,
    torrent: &Torrent,
    blocks: &[BlockId],
)
    requires have { All (λ b. HasBlock torrent.now b.file b.block) blocks.now }
    requires room { vec_len send.old + length blocks.now ≤ vec_capacity send.old }
    ensures sent { AreRequestsSent torrent.now key blocks.now send.old.items send.new.items }
    ensures few { vec_len send.new ≤ vec_len send.old + length blocks.now }
    ensures capacity { vec_capacity send.old ≤ vec_capacity send.new }
{
    for block in blocks {
        let ask = request_of(torrent, *block);
        send.push((key, Frame::Message(Message::Request(ask))))
            .unwrap();
    }
}

/// The request of the whole block.
fn request_of(torrent: &Torrent, block: BlockId) -> Ask
    requires { HasBlock torrent.now block.file block.block }
    ensures { IsRangeOf torrent.now result.piece result.begin result.length block }
{
    let range = torrent.range_of(block.file, block.block).unwrap();
    Ask {
        piece: range.piece,
        begin: range.begin,
        length: range.length,
    }
}
