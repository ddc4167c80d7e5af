//! How long a peer may take for what it owes, so that those who wait behind it have their turn. The time counts for
//! which its socket is waited for. While this program itself is at work, or is stopped, these times stand still.
ghost use Rattle.std.specs.Prelude.{◌≡◌, ◌↔◌, ◌⊎◌, ◌+◌, ◌-◌, ◌<◌, IsTrue, true, false, [], length, Contains};
ghost use Rattle.bt_sockets.specs.OpenSteps.{IsOpened, IsWithout};
ghost use Rattle.bt_sockets.specs.TimingSteps.{HasCome, HasGone, HasKind, HasMessage, HaveBegun, HavePassed, HavePassedOut};
ghost use Rattle.bt_sockets.specs.TimingSteps.{IsLookedAt, IsResumed, IsSpent, IsStranger, KeepsOthers, MayHaveGone, open_asks, with_pieces};
ghost use Rattle.bt_sockets.specs.TimingSteps.{HasTurn, WaitsForTurn};
ghost use Rattle.std.specs.Duration.{as_nanos};
ghost use Rattle.std.specs.Time.{instant_nanos, FitsClock};

use crate::open_requests::OpenRequests;
use crate::outgoing::Sent;
use crate::outgoing_state::Outgoing;
use bt_connection::{Arrival, Observer};
use bt_wire::Ask;
use bt_wire::frames::{
    CHOKE, HASH_REJECT, HASH_REQUEST, HASHES, HAVE, INTERESTED, NOT_INTERESTED, PIECE, UNCHOKE,
};
use std::cell::Cell;
use std::time::{Duration, Instant};

/// How many seconds a peer that is served, and is a stranger, has for its handshake, in all.
pub const HANDSHAKE_SECONDS: u64 = 15;

/// How many seconds a session has from one message to the next that is of use: a block or hashes that were asked
/// for; and, of a peer that is served, what was sent for a request of it.
pub const USE_SECONDS: u64 = 600;

/// How many seconds a peer that is fetched from has for the first block, and from one block to the next, while
/// requests of blocks are open and it sends other messages.
pub const BLOCK_SECONDS: u64 = 60;

/// Where this many seconds or more pass between two looks at the clock, and the socket is not waited for meanwhile, this
/// program was at work, or was stopped, and they are not counted against the peer. Shorter work is: else one that sends
/// what is of no use, faster than it is read, would hardly ever be late.
pub const WORK_SECONDS: u64 = 2;

/// What a connection is there for.
#[derive(Clone, Copy, Debug, PartialEq, Eq)]
pub enum Role {
    /// Blocks are fetched from its peer.
    Fetch,
    /// The connection's peer is served.
    Serve,
}

/// What has passed over a connection, and when.
#[derive(Clone, Copy)]
struct Times {
    role: Role,
    begun: Instant,
    /// When the clock was looked at last.
    looked: Instant,
    /// When the last bytes came.
    last: Instant,
    /// Whether the peer's handshake came.
    is_greeted: bool,
    /// When something passed last that is of use.
    used: Instant,
    /// Whether the peer chokes us, and so answers no request.
    is_choked: bool,
    /// The requests of blocks that are open,
    requests: OpenRequests,
    /// the first of them since then; or else the last block came then.
    asked: Instant,
    /// How many requests of hashes are open.
    pending_hashes: u64,
    /// Whether the peer refused a request of hashes.
    is_refused: bool,
    /// Whether the peer was told last that blocks are wanted of it.
    is_interested: bool,
    /// How many pieces the torrent has,
    pieces: u64,
    /// and how many of them the peer says that it has.
    had: u64,
    /// Whether another message came when a block was overdue.
    is_overdue: bool,
    /// Whether the peer was given up, since it took too long.
    is_given_up: bool,
    /// Whether the peer says that it wants blocks of us,
    wants_blocks: bool,
    /// and whether we choke it, and so answer no request.
    we_choke: bool,
    outgoing: Outgoing,
}

impl Times {
    /// Nothing has passed over a connection that begins now, for a torrent of `pieces` pieces.
    fn new(role: Role, pieces: u32, now: Instant) -> Self
        ensures { HaveBegun role pieces now result }
    {
        Times {
            role,
            begun: now,
            looked: now,
            last: now,
            is_greeted: false,
            used: now,
            is_choked: true,
            requests: OpenRequests::new(),
            asked: now,
            pending_hashes: 0,
            is_refused: false,
            is_interested: false,
            pieces: u64::from(pieces),
            had: 0,
            is_overdue: false,
            is_given_up: false,
            wants_blocks: false,
            we_choke: true,
            outgoing: Outgoing::new(),
        }
    }

    /// Whether the peer has taken too long.
    fn is_late(&self, now: Instant) -> bool
        ensures { IsTrue result ↔ (IsTrue self.now.is_overdue
            ⊎ (HavePassed USE_SECONDS self.now.used now
            ⊎ (IsStranger self.now × HavePassed HANDSHAKE_SECONDS self.now.begun now))) }
    {
        self.is_overdue
            || has_passed(self.used, USE_SECONDS, now)
            || self.is_stranger() && has_passed(self.begun, HANDSHAKE_SECONDS, now)
    }

    /// Whether the peer, of which blocks are fetched, has nothing more to give: it has all pieces and no block of them
    /// is wanted any more, it refused hashes, and nothing is open that it was asked for.
    fn is_spent(&self) -> bool
        ensures { IsTrue result ↔ IsSpent self.now }
    {
        self.role == Role::Fetch
            && self.is_refused
            && !self.is_interested
            && self.had >= self.pieces
            && self.requests.is_empty()
            && self.pending_hashes == 0
    }

    /// Whether nothing came of the peer for so long that it is given up.
    fn is_idle(&self, seconds: u64, now: Instant) -> bool
        ensures { IsTrue result ↔ HavePassed seconds self.now.last now }
    {
        has_passed(self.last, seconds, now)
    }

    /// Whether the peer, which is served, wants blocks and gets none, since others have their turn.
    fn waits_for_turn(&self) -> bool
        ensures { IsTrue result ↔ WaitsForTurn self.now }
    {
        self.role == Role::Serve && self.wants_blocks && self.we_choke
    }

    /// Whether the peer, which is served, wants blocks and may have them.
    fn has_turn(&self) -> bool
        ensures { IsTrue result ↔ HasTurn self.now }
    {
        self.role == Role::Serve && self.wants_blocks && !self.we_choke
    }

    /// So much time passed, which is not counted for being of use where the peer waits for its turn.
    fn pass(&mut self, time: Duration)
        ensures waits { WaitsForTurn self.old
            → FitsClock (instant_nanos self.old.used + as_nanos time)
            → instant_nanos self.new.used ≡ instant_nanos self.old.used + as_nanos time }
        ensures others { self.new ≡ record self.old { used = self.new.used } }
        ensures counts { ¬ WaitsForTurn self.old → self.new ≡ self.old }
    {
        if self.waits_for_turn() {
            self.used = self.used.checked_add(time).unwrap_or(self.used);
        }
    }

    /// Whether the peer came by itself, and has not sent its handshake.
    fn is_stranger(&self) -> bool
        ensures { IsTrue result ↔ IsStranger self.now }
    {
        self.role == Role::Serve && !self.is_greeted
    }

    /// The clock is looked at. The peer's times stood still since it was before, where that is long ago.
    fn look(&mut self, now: Instant)
        ensures begun { IsResumed WORK_SECONDS self.old.looked now self.old.begun self.new.begun }
        ensures used { IsResumed WORK_SECONDS self.old.looked now self.old.used self.new.used }
        ensures asked { IsResumed WORK_SECONDS self.old.looked now self.old.asked self.new.asked }
        ensures looked { self.new.looked ≡ now }
        ensures others { KeepsOthers self.old self.new }
    {
        self.begun = resumed(self.begun, self.looked, now);
        self.used = resumed(self.used, self.looked, now);
        self.asked = resumed(self.asked, self.looked, now);
        self.looked = now;
    }

    /// The socket was waited for in vain since the clock was looked at, and all of that counts, however long it is.
    fn wait(&mut self, now: Instant)
        ensures { self.new ≡ record self.old { looked = now } }
    {
        self.looked = now;
    }

    /// The socket was waited for, for a turn at most, until bytes passed. What that call took longer counts as work does:
    /// this program may have been stopped in it.
    fn wait_turn(&mut self, turn: Duration, now: Instant)
        ensures looked { self.new.looked ≡ now }
        ensures others { KeepsOthers self.old self.new }
    {
        self.looked = self.looked.checked_add(turn).unwrap_or(now);
        self.look(now);
    }

    /// Bytes come now.
    fn pass_in(&mut self, now: Instant)
        ensures { self.new ≡ record self.old { last = now } }
    {
        self.last = now;
    }

    /// The peer is given up.
    fn give_up(&mut self)
        ensures { self.new ≡ record self.old { is_given_up = true } }
    {
        self.is_given_up = true;
    }

    /// Notes what came, by the last bytes that did.
    fn came(&mut self, arrival: Arrival)
        ensures { HasCome self.old arrival self.new }
    {
        match arrival {
            Arrival::Handshake => self.is_greeted = true,
            Arrival::KeepAlive => self.look_for_block(self.last),
            Arrival::Bits(count) => self.note_pieces(count),
            Arrival::Block(ask) => self.block_came(ask, self.last),
            Arrival::Message(kind) => self.other_came(kind, self.last),
        }
    }

    /// Notes bytes that went out.
    fn pass_out(&mut self, bytes: &[u8], now: Instant)
        ensures { HavePassedOut now self.old bytes.now [] self.new }
    {
        let mut rest = bytes;
        'passing: while !rest.is_empty() {
            let passed = self.outgoing.pass(rest);
            self.note_whole(passed.1, now);
            rest = &rest[passed.0..];
        }
    }

    /// Notes the message that is whole, if one is.
    fn note_whole(&mut self, whole: Option<Sent>, now: Instant)
        ensures { MayHaveGone self.old whole now self.new }
    {
        if let Some(sent) = whole {
            self.went(sent, now);
        }
    }

    /// A block came. It is of use where it was asked for: else a peer could stay for ever by bytes that nobody wants.
    /// Any other is a message like another.
    fn block_came(&mut self, ask: Ask, now: Instant)
        ensures closed { Contains (open_asks self.old.requests) ask
            → IsWithout (open_asks self.old.requests) ask (open_asks self.new.requests) }
        ensures used { Contains (open_asks self.old.requests) ask → self.new.used ≡ now }
        ensures asked { Contains (open_asks self.old.requests) ask → self.new.asked ≡ now }
        ensures others { Contains (open_asks self.old.requests) ask
            → self.new ≡ record self.old { requests = self.new.requests; used = now; asked = now } }
        ensures unasked { ¬ Contains (open_asks self.old.requests) ask
            → IsLookedAt self.old now self.new }
    {
        if self.requests.remove(ask) {
            self.used = now;
            self.asked = now;
        } else {
            self.look_for_block(now);
        }
    }

    /// The peer says that it has `count` pieces more.
    fn note_pieces(&mut self, count: u64)
        ensures { self.new ≡ with_pieces self.old count }
    {
        self.had = self.had.saturating_add(count);
    }

    /// Another message came. Hashes are of use where some were asked for, and a choke closes all requests.
    fn other_came(&mut self, kind: u8, now: Instant)
        ensures { HasMessage self.old kind now self.new }
    {
        self.note_kind(kind, now);
        self.look_for_block(now);
    }

    /// Notes what a message of this kind says.
    fn note_kind(&mut self, kind: u8, now: Instant)
        ensures { HasKind self.old kind now self.new }
    {
        match kind {
            CHOKE => self.choke(),
            UNCHOKE => self.is_choked = false,
            INTERESTED => self.wants_blocks = true,
            NOT_INTERESTED => self.wants_blocks = false,
            HAVE => self.note_pieces(1),
            HASHES if self.pending_hashes > 0 => {
                self.pending_hashes -= 1;
                self.used = now;
            }
            HASH_REJECT if self.pending_hashes > 0 => {
                self.pending_hashes -= 1;
                self.is_refused = true;
            }
            _ => {}
        }
    }

    /// The peer chokes us, and answers no request that is open.
    fn choke(&mut self)
        ensures choked { self.new.is_choked ≡ true }
        ensures closed { open_asks self.new.requests ≡ [] }
        ensures others { self.new
            ≡ record self.old { is_choked = true; requests = self.new.requests } }
    {
        self.is_choked = true;
        self.requests = OpenRequests::new();
    }

    /// Looks whether a block is overdue as another message comes.
    fn look_for_block(&mut self, now: Instant)
        ensures { IsLookedAt self.old now self.new }
    {
        self.is_overdue = self.is_overdue
            || self.role == Role::Fetch
                && !self.requests.is_empty()
                && has_passed(self.asked, BLOCK_SECONDS, now);
    }

    /// A message went out.
    fn went(&mut self, sent: Sent, now: Instant)
        ensures { HasGone self.old sent now self.new }
    {
        match sent {
            Sent::Request(ask) => self.ask_went(ask, now),
            Sent::Cancel(ask) => {
                self.requests.remove(ask);
            }
            Sent::Message(INTERESTED) => self.is_interested = true,
            Sent::Message(NOT_INTERESTED) => self.is_interested = false,
            Sent::Message(CHOKE) => self.we_choke = true,
            Sent::Message(UNCHOKE) => self.we_choke = false,
            Sent::Message(HASH_REQUEST) => {
                self.pending_hashes = self.pending_hashes.saturating_add(1);
            }
            Sent::Message(PIECE | HASHES) if self.role == Role::Serve => self.used = now,
            Sent::Message(_) => {}
        }
    }

    /// A request of a block went out. One that chokes us does not answer it: its choke may have come when the engine
    /// had not read it yet.
    fn ask_went(&mut self, ask: Ask, now: Instant)
        ensures choked { self.old.is_choked ≡ true → self.new ≡ self.old }
        ensures opened { self.old.is_choked ≡ false
            → IsOpened (open_asks self.old.requests) ask (open_asks self.new.requests) }
        ensures first { self.old.is_choked ≡ false → open_asks self.old.requests ≡ []
            → self.new.asked ≡ now }
        ensures further { 0 < length (open_asks self.old.requests) → self.new.asked
            ≡ self.old.asked }
        ensures others { self.new
            ≡ record self.old { requests = self.new.requests; asked = self.new.asked } }
    {
        if self.is_choked {
            return;
        }
        if self.requests.is_empty() {
            self.asked = now;
        }
        self.requests.insert(ask);
    }
}

/// Whether `seconds` seconds or more have passed since then.
fn has_passed(since: Instant, seconds: u64, now: Instant) -> bool
    ensures { IsTrue result ↔ HavePassed seconds since now }
{
    now.duration_since(since) >= Duration::from_secs(seconds)
}

/// Since when a time runs that stood still since the clock was looked at before, where that is long ago: as much of it
/// is over now as was then.
fn resumed(since: Instant, looked: Instant, now: Instant) -> Instant
    ensures { IsResumed WORK_SECONDS looked now since result }
{
    if !has_passed(looked, WORK_SECONDS, now) {
        return since;
    }
    let over = looked.duration_since(since);
    now.checked_sub(over).unwrap_or(since)
}

/// What has passed over the connection that is there, and when. What lies in a cell no clause knows.
#[derive(Drop)]
pub struct Timing {
    times: Cell<Option<Times>>,
}

impl Timing {
    /// A timing of no connection yet.
    pub fn new() -> Self {
        Timing {
            times: Cell::new(None),
        }
    }

    /// So much time passed at a gate by whose clock the connection goes. It is not counted for being of use while the
    /// peer waits for its turn: it wants blocks, and others are served.
    pub fn pass(&self, time: Duration) {
        if let Some(mut times) = self.times.get() {
            times.pass(time);
            self.times.set(Some(times));
        }
    }

    /// Whether the peer wants blocks, and gets none, since others are served.
    pub fn waits_for_turn(&self) -> bool {
        match self.times.get() {
            Some(times) => times.waits_for_turn(),
            None => false,
        }
    }

    /// Whether the peer wants blocks, and may have them.
    pub fn has_turn(&self) -> bool {
        match self.times.get() {
            Some(times) => times.has_turn(),
            None => false,
        }
    }

    /// Whether the peer was given up.
    pub fn is_given_up(&self) -> bool {
        match self.times.get() {
            Some(times) => times.is_given_up,
            None => false,
        }
    }

    /// A connection begins, for a torrent of `pieces` pieces.
    pub fn begin(&self, role: Role, pieces: u32, now: Instant) -> Timed<'_> {
        self.times.set(Some(Times::new(role, pieces, now)));
        Timed(self)
    }
}

impl Observer for Timing {
    fn came(&self, arrival: Arrival) {
        if let Some(mut times) = self.times.get() {
            times.came(arrival);
            self.times.set(Some(times));
        }
    }
}

/// The timing of a connection that has begun. Both its handles note in it what passes.
#[derive(Clone, Copy)]
pub struct Timed<'a>(&'a Timing);

impl<'a> Timed<'a> {
    /// Who is told what comes.
    pub fn observer(self) -> &'a Timing {
        self.0
    }

    /// Whether the peer has taken too long.
    pub fn is_late(self, now: Instant) -> bool {
        match self.0.times.get() {
            Some(times) => times.is_late(now),
            None => false,
        }
    }

    /// Whether the peer has nothing more to give.
    pub fn is_spent(self) -> bool {
        match self.0.times.get() {
            Some(times) => times.is_spent(),
            None => false,
        }
    }

    /// Whether nothing came of the peer for this many seconds, nor was taken by it where it had made us wait.
    pub fn is_idle(self, seconds: u64, now: Instant) -> bool {
        match self.0.times.get() {
            Some(times) => times.is_idle(seconds, now),
            None => false,
        }
    }

    /// Notes that bytes come now, by a clock that does not count work. What they are is told next (`Observer`). Or that the
    /// peer takes some now, after it took none.
    pub fn note_in(self, now: Instant) {
        if let Some(mut times) = self.0.times.get() {
            times.pass_in(now);
            self.0.times.set(Some(times));
        }
    }

    /// Notes bytes that go out now, by such a clock.
    pub fn note_out(self, bytes: &[u8], now: Instant) {
        if let Some(mut times) = self.0.times.get() {
            times.pass_out(bytes, now);
            self.0.times.set(Some(times));
        }
    }

    /// Whether the peer was given up.
    pub(crate) fn is_given_up(self) -> bool {
        self.0.is_given_up()
    }

    /// Since when is waited now, where it was since then: it is of no account what is not counted against the peer.
    pub(crate) fn resumed(self, since: Instant, now: Instant) -> Instant {
        match self.0.times.get() {
            Some(times) => resumed(since, times.looked, now),
            None => since,
        }
    }

    /// Notes that the clock is looked at.
    pub(crate) fn look(self, now: Instant) {
        if let Some(mut times) = self.0.times.get() {
            times.look(now);
            self.0.times.set(Some(times));
        }
    }

    /// Notes that the socket was waited for in vain until now.
    pub(crate) fn wait(self, now: Instant) {
        if let Some(mut times) = self.0.times.get() {
            times.wait(now);
            self.0.times.set(Some(times));
        }
    }

    /// Notes that the peer is given up.
    pub fn give_up(self) {
        if let Some(mut times) = self.0.times.get() {
            times.give_up();
            self.0.times.set(Some(times));
        }
    }

    /// Notes that the socket was waited for, for a turn at most, until bytes came now. What they are is told next
    /// (`Observer`).
    pub(crate) fn pass_in(self, turn: Duration, now: Instant) {
        if let Some(mut times) = self.0.times.get() {
            times.wait_turn(turn, now);
            times.pass_in(now);
            self.0.times.set(Some(times));
        }
    }

    /// Notes that the socket was waited for, for a turn at most, until it took these bytes now.
    pub(crate) fn pass_out(self, bytes: &[u8], turn: Duration, now: Instant) {
        if let Some(mut times) = self.0.times.get() {
            times.wait_turn(turn, now);
            times.pass_out(bytes, now);
            self.0.times.set(Some(times));
        }
    }
}
