//! The words that lines begin with.
ghost use Rattle.std.specs.Prelude.{◌≡◌, ◌≢◌, IfSome, IfNone};
ghost use Rattle.bt_replay.specs.Line.{word_text};
ghost use Rattle.bt_replay.specs.declared.word.Word.{Word as LineWord};

/// What a line begins with.
#[derive(Clone, Copy, Debug, PartialEq, Eq)]
pub(crate) enum Word {
    Torrent,
    Fault,
    Flip,
    Connect,
    Hello,
    Feed,
    Next,
    Lost,
    Rechoke,
    Adopt,
    Flush,
    Restart,
    Report,
}

/// The word that a field is, where it is one.
pub(crate) fn word_in(field: &[u8]) -> Option<Word>
    ensures some { IfSome result (λ word. word_text word ≡ field.now) }
    ensures none { IfNone result ((word : LineWord) → word_text word ≢ field.now) }
{
    match field {
        b"torrent" => Some(Word::Torrent),
        b"fault" => Some(Word::Fault),
        b"flip" => Some(Word::Flip),
        b"connect" => Some(Word::Connect),
        b"hello" => Some(Word::Hello),
        b"feed" => Some(Word::Feed),
        b"next" => Some(Word::Next),
        b"lost" => Some(Word::Lost),
        b"rechoke" => Some(Word::Rechoke),
        b"adopt" => Some(Word::Adopt),
        b"flush" => Some(Word::Flush),
        b"restart" => Some(Word::Restart),
        b"report" => Some(Word::Report),
        _ => None,
    }
}
