//! The messages among bytes that came of a peer (BEP 3), and the whole blocks that these messages carry.
ghost use Rattle.std.specs.Prelude.{◌≡◌, ◌↔◌, ◌<◌, ◌≤◌, All, length, take, drop, IsTrue};
ghost use Rattle.std.specs.Bool.{OnFalse};
ghost use Rattle.bt_wire.specs.Frames.{HasNoMessage};
ghost use Rattle.bt_connection.specs.Messages.{AreMessages, CarriesBlock, IsLongAt, MayCarryBlock, Leads};
ghost use Rattle.bt_connection.specs.MessageSteps.{HasLong, IsCut};

use crate::blocks::Blocks;
use crate::observer::{Observer, Rest, tell_message};
use bt_wire::frames::{BLOCK_MESSAGE_LEN, LENGTH_LEN, PIECE, first_message, message_len};

/// Whole messages, one after the other.
#[derive(Drop)]
struct WholeMessages {
    /// How many bytes they have together.
    len: usize,
    /// Those of them that carry a whole block.
    blocks: Blocks,
}

/// The whole messages with which the bytes begin. Each is looked at once, and the observer is told of it.
fn whole_messages<O: Observer>(bytes: &[u8], observer: &O) -> WholeMessages
    ensures within { result.len ≤ length bytes.now }
    ensures messages { AreMessages (take result.len bytes.now) }
    ensures part { HasNoMessage (drop result.len bytes.now) }
    ensures long { All (IsLongAt bytes.now result.len) result.blocks }
{
    let mut at = 0;
    let mut blocks = Blocks::new();
    'messages: while let Some(len) = first_message(&bytes[at..]) {
        let message = &bytes[at..at + len];
        tell_message(observer, message);
        if carries_block(message) {
            blocks.push(bytes.len() - at);
        }
        at += len;
    }
    WholeMessages { len: at, blocks }
}

/// Whether a message carries a whole block.
fn carries_block(message: &[u8]) -> bool
    ensures { IsTrue result ↔ CarriesBlock message.now }
{
    message.len() == BLOCK_MESSAGE_LEN && message[LENGTH_LEN] == PIECE
}

/// Whether a message of which this part has come may carry a whole block.
fn may_carry_block(part: &[u8]) -> bool
    ensures answer { IsTrue result ↔ MayCarryBlock part.now }
    ensures begun { OnFalse result (4 ≤ length part.now) }
{
    if part.len() < LENGTH_LEN {
        return true;
    }
    if message_len(part) != BLOCK_MESSAGE_LEN {
        return false;
    }
    part.len() == LENGTH_LEN || part[LENGTH_LEN] == PIECE
}

/// Where the bytes that wait in a room are cut: those in front may be given.
#[derive(Drop)]
pub(crate) struct Cut {
    /// How many bytes may be given.
    pub(crate) ready: usize,
    /// Which messages among these bytes carry a whole block.
    pub(crate) blocks: Blocks,
    /// How many bytes are still to come of a message that is given as it comes.
    pub(crate) owed: usize,
    /// What these bytes are.
    pub(crate) rest: Rest,
}

/// Cuts bytes that begin with the rest of a message that is given as it comes, of which `owed` bytes were still to
/// come. What is there of this rest may be given; so may the whole messages behind it; and so may what there is of a
/// message behind those that can't carry a whole block.
fn cut_messages<O: Observer>(owed: usize, rest: Rest, bytes: &[u8], observer: &O) -> Cut
    ensures cut { IsCut bytes.now result }
    ensures leads { Leads owed (take result.ready bytes.now) result.owed }
    ensures long { HasLong bytes.now result.ready result.blocks }
{
    let begin = owed.min(bytes.len());
    let left = rest.tell(observer, &bytes[..begin], begin == owed);
    let messages = whole_messages(&bytes[begin..], observer);
    let whole = begin + messages.len;
    let part = &bytes[whole..];
    if may_carry_block(part) {
        return Cut {
            ready: whole,
            blocks: messages.blocks,
            owed: owed - begin,
            rest: left,
        };
    }
    Cut {
        ready: bytes.len(),
        blocks: messages.blocks,
        owed: message_len(part) - part.len(),
        rest: Rest::Message.tell(observer, &part[LENGTH_LEN..], false),
    }
}

/// Cuts bytes that wait, of which the last read brought the last `count`, and tells the observer what came. A read
/// that brought none was the reader's end: then all bytes may be given, and so may whatever comes later.
pub(crate) fn cut_behind<O: Observer>(
    count: usize,
    owed: usize,
    rest: Rest,
    bytes: &[u8],
    observer: &O,
) -> Cut
    ensures cut { IsCut bytes.now result }
    ensures leads { 0 < count → Leads owed (take result.ready bytes.now) result.owed }
    ensures ended { count ≡ 0 → result.ready ≡ length bytes.now }
    ensures long { HasLong bytes.now result.ready result.blocks }
{
    if count == 0 {
        return Cut {
            ready: bytes.len(),
            blocks: Blocks::new(),
            owed: usize::MAX,
            rest: Rest::Nothing,
        };
    }
    cut_messages(owed, rest, bytes, observer)
}
