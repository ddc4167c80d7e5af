//! The lines of a script.
ghost use Rattle.std.specs.Prelude.{[], ◌≡◌, ◌≢◌, IfOk, IfSome, IfNone, OnErr};
ghost use Rattle.bt_replay.specs.Field.{fields_in};
ghost use Rattle.bt_replay.specs.Line.{HasBytes, Makes, Spells, SpellsBytes, SpellsNone};
ghost use Rattle.bt_replay.specs.declared.line.Line.{Line as ScriptLine};
ghost use Rattle.bt_replay.specs.declared.word.Word.TheVariants as Word;

use crate::arguments::{
    bytes_after, file_and_call_in, file_call_and_place_in, file_in, peer_and_bytes_in, peer_in,
};
use crate::field::cut;
use crate::word::{Word, word_in};
use bt_book::PeerKey;
use bt_wire::Bytes;
use std::alloc::{AllocError, Global};

/// A line of a script.
#[derive(Debug, Drop)]
pub enum Line {
    /// The torrent that the engine is started for.
    Torrent(Bytes),
    /// A call of a file's device fails.
    Fault { file: u32, call: u64 },
    /// From a call of a file's device on, a byte is read with its low bit changed.
    Flip { file: u32, call: u64, at: u64 },
    /// A peer comes.
    Connect,
    /// The handshake comes from a peer.
    Hello(PeerKey),
    /// Bytes come from a peer.
    Feed(PeerKey, Bytes),
    /// The next wire event of a peer is taken.
    Next(PeerKey),
    /// A peer goes.
    Lost(PeerKey),
    /// The peers to serve are chosen anew.
    Rechoke,
    /// What the device of a file has already is taken in.
    Adopt(u32),
    /// All devices are synced, and what is known is written to the log.
    Flush,
    /// All is begun anew from the log.
    Restart,
    /// It is told how far each file is.
    Report,
}

/// The line that a text spells; None where it spells none. Errors: out of memory, where it spells one that has bytes.
pub fn line_in(alloc: Global, text: &[u8]) -> Result<Option<Line>, AllocError>
    ensures some { IfOk result (λ found. IfSome found (Spells text.now)) }
    ensures none { IfOk result (λ found. IfNone found (SpellsNone text.now)) }
    ensures memory { OnErr result (SpellsBytes text.now) }
{
    let (name, rest) = cut(text, b' ');
    match word_in(name) {
        Some(word) => line_with(alloc, word, rest),
        None => Ok(None),
    }
}

/// The line that a word and the fields after it make.
fn line_with(alloc: Global, word: Word, rest: Option<&[u8]>) -> Result<Option<Line>, AllocError>
    ensures some { IfOk result (λ found. IfSome found (Makes word (fields_in rest.entry))) }
    ensures none { IfOk result (λ found. IfNone found
        ((line : ScriptLine) → ¬ Makes word (fields_in rest.entry) line)) }
    ensures memory { OnErr result
        ((line : ScriptLine) × Makes word (fields_in rest.entry) line × HasBytes line) }
{
    match word {
        Word::Torrent => torrent_line(alloc, rest),
        Word::Feed => feed_line(alloc, rest),
        _ => Ok(short_line(word, rest)),
    }
}

fn torrent_line(alloc: Global, rest: Option<&[u8]>) -> Result<Option<Line>, AllocError>
    ensures some { IfOk result (λ found. IfSome found
        (Makes Word.Torrent (fields_in rest.entry))) }
    ensures none { IfOk result (λ found. IfNone found
        ((line : ScriptLine) → ¬ Makes Word.Torrent (fields_in rest.entry) line)) }
    ensures memory { OnErr result
        ((line : ScriptLine) × Makes Word.Torrent (fields_in rest.entry) line × HasBytes line) }
{
    match bytes_after(alloc, rest)? {
        Some(bytes) => Ok(Some(Line::Torrent(bytes))),
        None => Ok(None),
    }
}

fn feed_line(alloc: Global, rest: Option<&[u8]>) -> Result<Option<Line>, AllocError>
    ensures some { IfOk result (λ found. IfSome found
        (Makes Word.Feed (fields_in rest.entry))) }
    ensures none { IfOk result (λ found. IfNone found
        ((line : ScriptLine) → ¬ Makes Word.Feed (fields_in rest.entry) line)) }
    ensures memory { OnErr result
        ((line : ScriptLine) × Makes Word.Feed (fields_in rest.entry) line × HasBytes line) }
{
    match peer_and_bytes_in(alloc, rest)? {
        Some((key, bytes)) => Ok(Some(Line::Feed(key, bytes))),
        None => Ok(None),
    }
}

/// The line that a word and the fields after it make, where the word is none that bytes follow. It takes no memory.
fn short_line(word: Word, rest: Option<&[u8]>) -> Option<Line>
    requires torrent { word ≢ Word.Torrent }
    requires feed { word ≢ Word.Feed }
    ensures some { IfSome result (Makes word (fields_in rest.entry)) }
    ensures none { IfNone result
        ((line : ScriptLine) → ¬ Makes word (fields_in rest.entry) line) }
{
    match word {
        Word::Torrent | Word::Feed => unreachable!(),
        Word::Connect => lone_line(Line::Connect, rest),
        Word::Rechoke => lone_line(Line::Rechoke, rest),
        Word::Flush => lone_line(Line::Flush, rest),
        Word::Restart => lone_line(Line::Restart, rest),
        Word::Report => lone_line(Line::Report, rest),
        Word::Hello => Some(Line::Hello(peer_in(rest)?)),
        Word::Next => Some(Line::Next(peer_in(rest)?)),
        Word::Lost => Some(Line::Lost(peer_in(rest)?)),
        Word::Adopt => Some(Line::Adopt(file_in(rest)?)),
        Word::Fault => {
            let (file, call) = file_and_call_in(rest)?;
            Some(Line::Fault { file, call })
        }
        Word::Flip => {
            let (file, call, at) = file_call_and_place_in(rest)?;
            Some(Line::Flip { file, call, at })
        }
    }
}

/// A line that is its word alone.
fn lone_line(line: Line, rest: Option<&[u8]>) -> Option<Line>
    ensures some { IfSome result (λ found. (fields_in rest.entry ≡ []) × (found ≡ line)) }
    ensures none { IfNone result (fields_in rest.entry ≢ []) }
{
    match rest {
        None => Some(line),
        Some(_) => None,
    }
}
