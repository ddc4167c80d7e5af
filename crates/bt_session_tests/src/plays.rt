//! Sessions with a peer that takes its time.
ghost use Rattle.std.specs.Prelude.{[], ◌≡◌};

use crate::engine::TestEngine;
use crate::scene::{Act, Scene, SceneNet, WorkingReader};
use crate::sessions::tell_end;
use bt_progress::Unwatched;
use bt_rows::{RowError, Words, whole_answer};
use bt_session::{Flushing, Link, PeerEnd, end_text, meet_peer};
use bt_sockets::{IDLE_SECONDS, Passage, SESSION_TURNS, TcpLink, listen, serve};
use std::alloc::{AllocError, Global};
use std::fmt::Write;
use std::time::Duration;

const HOST: &str = "127.0.0.1";

const PORT: u16 = 6881;

/// What the peer is there for.
#[derive(Clone, Copy)]
enum Part {
    /// It is dialled, and fetched from.
    Source,
    /// It is served.
    Guest,
}

/// Adds what a row answers: how a session with a peer ended that does what the words say, and after how many seconds. What is no row
/// says so.
pub fn play_row(
    alloc: Global,
    passage: Passage<'_>,
    engine: &mut TestEngine,
    row: &str,
    out: &mut String,
) -> Result<(), AllocError> {
    let mut words = Words::new(row);
    let answer = answer_of(alloc, passage, engine, &mut words);
    let answer = whole_answer(alloc, row, &words, answer)?;
    writeln!(out, "{answer}")
}

fn answer_of(
    alloc: Global,
    passage: Passage<'_>,
    engine: &mut TestEngine,
    words: &mut Words,
) -> Result<String, RowError> {
    match words.word() {
        "used" => used_row(alloc, passage, engine, words),
        "fetch" => {
            let scene = scene_of(alloc, words, 0, 0)?;
            told_play(alloc, passage, engine, Part::Source, &scene)
        }
        "serve" => {
            let scene = scene_of(alloc, words, 0, 0)?;
            told_play(alloc, passage, engine, Part::Guest, &scene)
        }
        "refuse" => {
            let code = words.number()?.min(200) as i32;
            let refused = words.number()?;
            let scene = scene_of(alloc, words, refused, code)?;
            told_play(alloc, passage, engine, Part::Guest, &scene)
        }
        _ => Err(RowError::Unread),
    }
}

/// What comes of a session, and how its connection was used.
fn used_row(
    alloc: Global,
    passage: Passage<'_>,
    engine: &mut TestEngine,
    words: &mut Words,
) -> Result<String, RowError> {
    let part = match words.word() {
        "fetch" => Part::Source,
        "serve" => Part::Guest,
        _ => return Err(RowError::Unread),
    };
    let scene = scene_of(alloc, words, 0, 0)?;
    let mut text = told_play(alloc, passage, engine, part, &scene)?;
    scene.push_use(&mut text)?;
    Ok(text)
}

/// What the words say that a peer does, to the end.
fn scene_of(alloc: Global, words: &mut Words, refused: u32, code: i32) -> Result<Scene, RowError> {
    let mut acts = Vec::new(alloc);
    for _ in 0..u64::MAX {
        if words.is_at_end() {
            break;
        }
        push_act(alloc, &mut acts, words)?;
    }
    Ok(Scene::new(acts, refused, code))
}

fn push_act(alloc: Global, acts: &mut Vec<Act>, words: &mut Words) -> Result<(), RowError> {
    let act = match words.word() {
        "wait" => Act::Waits(Duration::from_secs(u64::from(words.number()?))),
        "work" => Act::Works(Duration::from_secs(u64::from(words.number()?))),
        "stop" => Act::Stops(Duration::from_secs(u64::from(words.number()?))),
        "lag" => Act::Lags(Duration::from_secs(u64::from(words.number()?))),
        "take" => Act::Takes(words.number()? as usize),
        "send" => Act::Sends(words.bytes(alloc)?),
        _ => return Err(RowError::Unread),
    };
    Ok(acts.push(act).map_err(AllocError::from)?)
}

fn told_play(
    alloc: Global,
    passage: Passage<'_>,
    engine: &mut TestEngine,
    part: Part,
    scene: &Scene,
) -> Result<String, RowError> {
    let end = end_of(alloc, passage, engine, part, &SceneNet(scene));
    let mut text = String::new(alloc);
    push_end(&mut text, end)?;
    write!(text, " after {} s", scene.seconds())?;
    Ok(text)
}

/// How it ended with the peer; None where it was not had.
fn end_of(
    alloc: Global,
    passage: Passage<'_>,
    engine: &mut TestEngine,
    part: Part,
    net: &SceneNet<'_>,
) -> Option<PeerEnd> {
    if engine.peers() != 0 {
        return None;
    }
    match part {
        Part::Source => Some(fetched(alloc, passage, engine, net)),
        Part::Guest => served(alloc, passage, engine, net),
    }
}

fn fetched(
    alloc: Global,
    passage: Passage<'_>,
    engine: &mut TestEngine,
    net: &SceneNet<'_>,
) -> PeerEnd
    requires no_peer { engine.old.state.peers ≡ [] }
{
    let idle = Duration::from_secs(IDLE_SECONDS);
    let mut link = TcpLink::new(net, HOST, PORT, idle, passage, alloc, &Unwatched);
    let reached = match link.dial() {
        Some((reader, writer)) => Some((WorkingReader::new(reader, net.0), writer)),
        None => None,
    };
    let (end, _) = meet_peer(alloc, engine, reached, true, SESSION_TURNS, Flushing::Never);
    end
}

fn served(
    alloc: Global,
    passage: Passage<'_>,
    engine: &mut TestEngine,
    net: &SceneNet<'_>,
) -> Option<PeerEnd>
    requires no_peer { engine.old.state.peers ≡ [] }
{
    let idle = Duration::from_secs(IDLE_SECONDS);
    let listener = listen(net, HOST, PORT).ok()?;
    serve(net, alloc, engine, &listener, idle, passage, &Unwatched).ok()
}

fn push_end(text: &mut String, end: Option<PeerEnd>) -> Result<(), AllocError> {
    match end {
        Some(PeerEnd::Session(end)) => tell_end(text, &Ok(end)),
        Some(end) => text.push_str(end_text(end)),
        None => text.push_str("not served"),
    }
}
