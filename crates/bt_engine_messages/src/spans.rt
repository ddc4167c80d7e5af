//! Which block the bytes of a piece message are all of, where in a file a requested range lies, and which
//! block or two it lies in.
ghost use Rattle.std.specs.Prelude.{◌≡◌, ◌+◌, IfNone, IfSome, length};
ghost use Rattle.bt_meta.specs.Place.{IsPlace};
ghost use Rattle.bt_machine.specs.Spans.{IsRangeOf, first_block, last_block};
ghost use Rattle.bt_engine_messages.specs.SpansSteps.{IsShortSpan};

use bt_book::BlockId;
use bt_meta::{PieceRange, Span, Torrent, block_ranges_are_places};
use bt_tree::BLOCK_LEN;
use bt_wire::Ask;

/// The block of which these bytes of a piece, from the byte `begin` on, are all.
pub(crate) fn block_of(torrent: &Torrent, piece: u32, begin: u32, bytes: &[u8]) -> Option<BlockId>
    ensures some { IfSome result (IsRangeOf torrent.now piece begin (length bytes.now)) }
    ensures none { IfNone result
        ((b : BlockId) → ¬ IsRangeOf torrent.now piece begin (length bytes.now) b) }
    ensures one { (a b : BlockId) → IsRangeOf torrent.now piece begin (length bytes.now) a
        → IsRangeOf torrent.now piece begin (length bytes.now) b → a ≡ b }
{
    let Ok(length) = u32::try_from(bytes.len()) else {
        return None;
    };
    block_in(
        torrent,
        Ask {
            piece,
            begin,
            length,
        },
    )
}

/// The block whose request would be this one.
fn block_in(torrent: &Torrent, ask: Ask) -> Option<BlockId>
    ensures some { IfSome result (IsRangeOf torrent.now ask.piece ask.begin ask.length) }
    ensures none { IfNone result
        ((b : BlockId) → ¬ IsRangeOf torrent.now ask.piece ask.begin ask.length b) }
    ensures one { (a b : BlockId) → IsRangeOf torrent.now ask.piece ask.begin ask.length a
        → IsRangeOf torrent.now ask.piece ask.begin ask.length b → a ≡ b }
{
    block_ranges_are_places();
    torrent.keeps_laws();
    let span = place_of(torrent, ask)?;
    // It can be no other block than the first that the range lies in.
    let block = BlockId {
        file: span.file,
        block: first_block(span),
    };
    let range = torrent.range_of(block.file, block.block)?;
    let asked = PieceRange {
        piece: ask.piece,
        begin: ask.begin,
        length: ask.length,
    };
    if range != asked {
        return None;
    }
    Some(block)
}

/// Where the range of a request lies. No file is longer than 2^40 bytes.
pub(crate) fn place_of(torrent: &Torrent, ask: Ask) -> Option<Span>
    ensures some { IfSome result (IsPlace torrent.now ask.piece ask.begin ask.length) }
    ensures short { IfSome result IsShortSpan }
    ensures none { IfNone result ((span : Span) → ¬ IsPlace torrent.now ask.piece ask.begin
        ask.length span) }
{
    // No file of a torrent is too long: a clause of this call says so.
    let _ = torrent.files();
    torrent.place(ask.piece, ask.begin, ask.length)
}

/// The first of the one block or the two that a span lies in.
pub(crate) fn first_block(span: Span) -> u32
    requires { IsShortSpan span }
    ensures { result ≡ first_block span }
{
    (span.start / BLOCK_LEN as u64) as u32
}

/// The last of the one block or the two that a span lies in.
pub(crate) fn last_block(span: Span) -> u32
    requires { IsShortSpan span }
    ensures { result ≡ last_block span }
{
    ((span.start + span.length as u64 - 1) / BLOCK_LEN as u64) as u32
}
