//! Laws of the padding: which requests are remembered, which pieces are filled up with zeros, and what passes as it
//! is. The functions do nothing when they run.
ghost use Rattle.bt_connection.specs.Law.{ShortBlocksAreLast, RemembersShortBlocks, ZerosLieBehindTheEnd, PadsWhatWasAsked, PlainPassesThrough, GivenOnCanBeSent};
ghost use Rattle.bt_connection.specs.TranslationLaw.{GivesStreams};

use bt_wire::streams_have_one_reading;

/// The short blocks of a torrent are the last blocks of its files that are short, and no others.
pub fn short_blocks_are_last()
    ensures { ShortBlocksAreLast }
{}

/// All that is remembered of a peer are requests for short blocks.
pub fn remembers_short_blocks()
    ensures { RemembersShortBlocks }
{}

/// A piece goes out as the engine cut it, or filled up with zeros where its file has ended.
pub fn zeros_lie_behind_the_end()
    ensures { ZerosLieBehindTheEnd }
{}

/// Pieces from a place are filled up no more often than the peer has asked there for a whole block.
pub fn pads_what_was_asked()
    ensures { PadsWhatWasAsked }
{}

/// What a peer sends that asks for no padding passes as it is, and so does all that goes to it.
pub fn plain_passes_through()
    ensures { PlainPassesThrough }
{}

/// What is given on in place of a message can be sent wherever that message could be.
pub fn given_on_can_be_sent()
    ensures { GivenOnCanBeSent }
{}

/// Where whole events came, just as many whole events are given on, and nothing else.
pub fn gives_streams()
    ensures { GivesStreams }
{
    streams_have_one_reading();
}
