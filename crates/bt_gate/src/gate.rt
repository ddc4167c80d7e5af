//! The gate of a swarm over sockets.
ghost use Rattle.std.specs.Prelude.{◌≡◌, ◌+◌, ◌-◌, ◌<◌, ◌^◌, ⊤, false, List, length, IfOk};
ghost use Rattle.bt_wire.specs.declared.message.Ask.{Ask};
ghost use Rattle.bt_doors.specs.Doors.{undialled};
ghost use Rattle.bt_gate.specs.Leading.{stays, goes_on, LeadsTo};
ghost use Rattle.bt_gate.specs.Ways.{AreNew};

use crate::clock::GateClock;
use crate::guest::Guest;
use crate::parting::Partings;
use crate::seats::{Place, SeatReader, Seats};
use crate::way_out::SeatWriter;
use bt_doors::{DOOR, Dialling, Door, Listening, Visitor};
use bt_progress::Watch;
use bt_session::{PeerEnd, SessionEnd};
use bt_sockets::{Passage, tell_arrival, tell_visit};
use bt_swarm::{Due, Gate};
use mio::unix::SourceFd;
use mio::{Events, Interest, Poll, Token};
use std::alloc::{AllocError, Global};
use std::marker::Model;
use std::net::{Net, OpenListener, OpenStream};
use std::os::fd::AsRawFd;
use std::time::{Clock, Duration, Instant};
use std::{io, thread};

/// How many events are taken at a time.
const EVENTS: usize = 256;

/// By which the system tells of those of whom leave is taken.
const PARTED: Token = Token(usize::MAX - 1);

/// For how many milliseconds at most is waited while leave is taken of somebody.
const PARTING_TURN_MILLIS: u64 = 100;

/// How often is waited so at most, once the gate is left.
const PARTING_TURNS: u32 = 1000;

/// How many seconds after the last choice the peers to serve are chosen anew.
const CHOICE_SECONDS: u64 = 10;

/// How many are served at once.
const SERVED: usize = 4;

/// A gate over sockets: who is there, by which door others come, and of whom leave is taken.
#[derive(Drop)]
pub struct TcpGate<'a, D: Door, C: Clock, P: Watch> {
    alloc: Global,
    watch: &'a P,
    system_clock: &'a C,
    clock: GateClock,
    poll: Poll,
    events: Events,
    door: D,
    passage: Passage<'a>,
    seats: &'a Seats,
    /// Who is at each place.
    guests: Vec<Option<Guest<D::Stream>>>,
    partings: Partings<D::Stream>,
    /// When the peers to serve were chosen last.
    chosen: Instant,
    /// How often it was waited.
    waits: u64,
}

impl<'a, D: Door, C: Clock, P: Watch> Model for TcpGate<'a, D, C, P> {
    ghost use Rattle.bt_gate.specs.Leading.{GateState};

    ghost Value = { GateState D };

    ghost view = { λ g. record { waits = g.waits; door = g.door } };
}

impl<'a, N: Net + Clock, P: Watch> TcpGate<'a, Listening<'a, N>, N, P> {
    /// A gate at which `most` connections are taken in all, for 2^64 - 1 all that come, as many at once as there are
    /// seats. A further one waits in the system's backlog. Errors: the system refuses this; out of memory.
    pub fn serving(
        alloc: Global,
        net: &'a N,
        watch: &'a P,
        listener: &'a N::Listener,
        passage: Passage<'a>,
        seats: &'a Seats,
        most: u64,
    ) -> io::Result<Self>
        ensures { IfOk result (λ gate. gate
            ≡ record { waits = 0; door = record { most = most; taken = 0; has_failed = false } }) }
    {
        listener.set_nonblocking(true)?;
        let door = Listening::new(listener, most);
        let gate = TcpGate::new(alloc, net, net, watch, door, passage, seats)?;
        gate.poll.registry().register(
            &mut SourceFd(&listener.as_raw_fd()),
            DOOR,
            Interest::READABLE,
        )?;
        Ok(gate)
    }

    /// Whether no connection can be taken any more, though not all were: the socket is none that listens, or none could be
    /// taken, though it was tried again and again.
    pub fn has_failed(&self) -> bool
        ensures { result ≡ self.now.door.has_failed }
    {
        self.door.has_failed()
    }
}

impl<'a, N: Net + Clock, P: Watch> TcpGate<'a, Dialling<'a, N, P>, N, P> {
    /// A gate from which all of these peers are dialled, each a host, which is a name or an address, and its port: as many
    /// at once as there are seats, in their order, the next as one goes. Errors: the system refuses this; out of memory.
    pub fn dialling(
        alloc: Global,
        net: &'a N,
        watch: &'a P,
        peers: &'a [(&'a str, u16)],
        passage: Passage<'a>,
        seats: &'a Seats,
    ) -> io::Result<Self>
        ensures { IfOk result (λ gate. gate ≡ record {
          waits = 0;
          door = undialled
              (length peers.now);
        }) }
    {
        let door = Dialling::new(alloc, net, watch, peers)?;
        TcpGate::new(alloc, net, net, watch, door, passage, seats)
    }

    /// How it ended with each peer, in their order. One that is dialled, or that was, is not reached before it has ended.
    pub fn ends(&self) -> &[PeerEnd]
        ensures { result.now ≡ self.now.door.ends }
    {
        self.door.ends()
    }
}

impl<'a, D: Door, C: Clock, P: Watch> TcpGate<'a, D, C, P> {
    /// A gate where nobody is. Errors: the system refuses this; out of memory.
    fn new<N: Net>(
        alloc: Global,
        net: &N,
        system_clock: &'a C,
        watch: &'a P,
        door: D,
        passage: Passage<'a>,
        seats: &'a Seats,
    ) -> io::Result<Self>
        ensures { IfOk result (λ gate. gate ≡ record { waits = 0; door = door }) }
    {
        // What rang it came before.
        passage.shared.alarm.stop();
        let now = Instant::now(system_clock)?;
        let poll = Poll::new(net)?;
        let events = Events::with_capacity(alloc, EVENTS)?;
        Ok(TcpGate {
            alloc,
            watch,
            system_clock,
            clock: GateClock::new(now),
            poll,
            events,
            door,
            passage,
            seats,
            guests: nobody_at(alloc, seats.count())?,
            partings: Partings::new(alloc),
            chosen: now,
            waits: 0,
        })
    }

    /// Hears out those of whom leave is taken still, for a second at most.
    pub fn take_leave(&mut self)
        ensures { self.new ≡ self.old }
    {
        self.watch.set_peers(None);
        self.pass_work();
        for _ in 0..PARTING_TURNS {
            if self.partings.is_empty() {
                return;
            }
            self.poll_for(Duration::from_millis(PARTING_TURN_MILLIS));
            self.pass_wait();
            self.partings.hear(self.clock.now());
        }
    }

    /// For how long the system is waited for at most, where it tells nothing.
    fn rest(&self) -> Duration {
        if has_work(self.seats.places()) {
            return Duration::ZERO;
        }
        let free = free_places(self.guests.as_slice());
        let rest = self.door.rest(free).min(Duration::from_secs(1));
        if self.partings.is_empty() {
            rest
        } else {
            rest.min(Duration::from_millis(PARTING_TURN_MILLIS))
        }
    }

    /// Waits for the system, for so long at most. Where that fails nothing is told, and the next try is not made at once.
    fn poll_for(&mut self, time: Duration)
        ensures { self.new ≡ self.old }
    {
        if self.poll.poll(&mut self.events, Some(time)).is_err() {
            thread::sleep(
                self.system_clock,
                Duration::from_millis(PARTING_TURN_MILLIS),
            );
        }
    }

    /// The clock goes on by work that is over.
    fn pass_work(&mut self)
        ensures { self.new ≡ self.old }
    {
        if let Ok(now) = Instant::now(self.system_clock) {
            let time = self.clock.work(now);
            pass(self.seats.places(), time, self.clock.now());
        }
    }

    /// The clock goes on by the time for which was waited.
    fn pass_wait(&mut self)
        ensures { self.new ≡ self.old }
    {
        if let Ok(now) = Instant::now(self.system_clock) {
            let time = self.clock.wait(now);
            pass(self.seats.places(), time, self.clock.now());
        }
    }

    /// Whether the peers to serve are to be chosen anew.
    fn is_choice_due(&mut self) -> bool
        ensures { self.new ≡ self.old }
    {
        let now = self.clock.now();
        let somebody_waits = begins_to_wait(self.guests.as_mut_slice(), self.seats);
        if now.duration_since(self.chosen) >= Duration::from_secs(CHOICE_SECONDS) {
            self.chosen = now;
            return true;
        }
        somebody_waits && served(self.guests.as_slice(), self.seats) < SERVED
    }

    /// A connection comes to a place. Errors: the system refuses what it needs; one that was here is not gone.
    fn welcome(
        &mut self,
        at: usize,
        place: &'a Place,
        visitor: Visitor<D::Stream>,
    ) -> io::Result<(SeatReader<'a, D::Stream>, SeatWriter<'a, D::Stream>)>
        ensures same { self.new ≡ self.old }
        ensures new { IfOk result (λ ways. (blocks : List Ask) × AreNew blocks ways.0 ways.1) }
    {
        let Visitor {
            stream,
            address,
            number,
        } = visitor;
        self.make_ready(at, &stream)?;
        let handle = stream.try_clone()?;
        let now = self.clock.now();
        let role = self.door.role();
        let ways = place.seat(self.alloc, self.passage, role, now, stream)?;
        tell_arrival(self.alloc, self.watch, address);
        let came = Instant::now(self.system_clock).ok();
        self.keep(at, Guest::new(handle, number, address, came));
        Ok(ways)
    }

    /// Has the calls of a connection's socket not wait, each write leave at once, and the system tell when it is ready.
    /// Errors: the system refuses this.
    fn make_ready(&self, at: usize, stream: &D::Stream) -> io::Result<()> {
        stream.set_nonblocking(true)?;
        stream.set_nodelay(true)?;
        self.poll.registry().register(
            &mut SourceFd(&stream.as_raw_fd()),
            Token(at),
            Interest::READABLE | Interest::WRITABLE,
        )
    }

    /// Keeps who is at a place.
    fn keep(&mut self, at: usize, guest: Guest<D::Stream>)
        ensures { self.new ≡ self.old }
    {
        if let Some(slot) = self.guests.get_mut(at) {
            *slot = Some(guest);
        }
        self.tell_count();
    }

    /// Tells how many are here.
    fn tell_count(&self) {
        let free = free_places(self.guests.as_slice());
        let here = self.guests.len().saturating_sub(free);
        self.watch.set_peers(Some(here));
    }

    /// Who was at a place, where nobody is now.
    fn take_guest(&mut self, at: usize) -> Option<Guest<D::Stream>>
        ensures { self.new ≡ self.old }
    {
        match self.guests.get_mut(at) {
            Some(slot) => slot.take(),
            None => None,
        }
    }

    /// Takes in what the system told, hears those of whom leave is taken, and has the door go on.
    fn attend(&mut self)
        ensures waits { self.new.waits ≡ self.old.waits }
        ensures size { D.size self.new.door ≡ D.size self.old.door }
        ensures given { D.given self.new.door ≡ D.given self.old.door }
    {
        if mark(&self.events, self.seats) {
            self.door.knock();
        }
        let now = self.clock.now();
        self.partings.hear(now);
        let free = free_places(self.guests.as_slice());
        self.door.go_on(self.poll.registry(), free, now);
    }

    /// Tells of one who goes how many bytes were sent to it, and takes leave of it, unless it was given up.
    fn see_off(&mut self, at: usize, guest: Guest<D::Stream>)
        ensures { self.new ≡ self.old }
    {
        let Some(place) = self.seats.place(at) else {
            return;
        };
        self.tell_count();
        place.leave();
        let sent = place.sent();
        let Guest {
            stream,
            address,
            came,
            ..
        } = guest;
        tell_visit(
            self.alloc,
            self.watch,
            self.system_clock,
            address,
            sent,
            came,
        );
        if !place.timing().is_given_up() {
            self.part(stream);
        }
    }

    /// Takes leave of a peer.
    fn part(&mut self, stream: D::Stream)
        ensures { self.new ≡ self.old }
    {
        let _ = self.poll.registry().reregister(
            &mut SourceFd(&stream.as_raw_fd()),
            PARTED,
            Interest::READABLE,
        );
        self.partings.part(stream, self.clock.now());
    }
}

/// So many places where nobody is. Errors: out of memory.
fn nobody_at<S: Drop>(alloc: Global, count: usize) -> Result<Vec<Option<Guest<S>>>, AllocError> {
    let mut guests = Vec::with_capacity(alloc, count)?;
    for _ in 0..count {
        guests.push(None)?;
    }
    Ok(guests)
}

/// How many places are free.
fn free_places<S>(guests: &[Option<Guest<S>>]) -> usize {
    let mut count = 0usize;
    for guest in guests {
        count = count.saturating_add(usize::from(guest.is_none()));
    }
    count
}

/// Whether a connection may be read or written to of which the system tells nothing more.
fn has_work(places: &[Place]) -> bool {
    for place in places {
        if place.has_work() {
            return true;
        }
    }
    false
}

/// The clock of all places goes on, by this time.
fn pass(places: &[Place], time: Duration, now: Instant) {
    for place in places {
        place.pass(time, now);
    }
}

/// Notes what the system tells of connections: whether it tells of the door too.
fn mark(events: &Events, seats: &Seats) -> bool {
    let mut knocks = false;
    for event in events.iter() {
        knocks |= event.token() == DOOR;
        if let Some(place) = seats.place(event.token().0) {
            place.see(
                event.is_readable() || event.is_read_closed() || event.is_error(),
                event.is_writable() || event.is_write_closed() || event.is_error(),
            );
        }
    }
    knocks
}

/// Whether one has begun to wait for its turn.
fn begins_to_wait<S>(guests: &mut [Option<Guest<S>>], seats: &Seats) -> bool {
    let mut begins = false;
    for (at, guest) in guests.iter_mut().enumerate() {
        if let (Some(guest), Some(place)) = (guest, seats.place(at)) {
            begins |= guest.begins_to_wait(place);
        }
    }
    begins
}

/// How many are served.
fn served<S>(guests: &[Option<Guest<S>>], seats: &Seats) -> usize {
    let mut count = 0usize;
    for (at, guest) in guests.iter().enumerate() {
        if let (Some(_), Some(place)) = (guest, seats.place(at)) {
            count = count.saturating_add(usize::from(place.timing().has_turn()));
        }
    }
    count
}

// What a cell or a socket holds is not known: neither whether a device has refused a write, nor who comes.
impl<'a, D: Door, C: Clock, P: Watch> Gate for TcpGate<'a, D, C, P> {
    type R = SeatReader<'a, D::Stream>;

    type W = SeatWriter<'a, D::Stream>;

    ghost gives = { λ reader writer. (blocks : List Ask) × AreNew blocks reader writer };

    ghost waits = { λ g. g.waits };

    ghost is_shut = { λ g. D.is_shut g.door };

    ghost is_troubled = { λ _. ⊤ };

    ghost leads = { λ a passed b.
        LeadsTo (D.size a.door) (D.given a.door) passed (D.size b.door) (D.given b.door) };

    ghost leads_nowhere = { λ gate. stays (D.size gate.door) (D.given gate.door) };

    ghost leads_on = { λ a b c first more before after. goes_on first more before after };

    fn wait(&mut self, at_once: bool) -> Due {
        self.waits += 1;
        self.pass_work();
        let rest = if at_once { Duration::ZERO } else { self.rest() };
        self.poll_for(rest);
        self.pass_wait();
        self.attend();
        Due {
            choice: self.is_choice_due(),
        }
    }

    fn is_over(&self) -> bool {
        self.door.is_over()
    }

    fn accept(
        &mut self,
        place: usize,
    ) -> Option<(SeatReader<'a, D::Stream>, SeatWriter<'a, D::Stream>)> {
        let room = self.seats.place(place)?;
        let visitor = self.door.take(self.clock.now())?;
        let number = visitor.number;
        match self.welcome(place, room, visitor) {
            Ok(ways) => {
                self.door.settle();
                Some(ways)
            }
            Err(_) => {
                self.door.note(number, PeerEnd::Unreachable);
                None
            }
        }
    }

    fn is_ready(&self, place: usize) -> bool {
        match self.seats.place(place) {
            Some(place) => place.is_due(),
            None => false,
        }
    }

    fn is_silent(&self, place: usize) -> bool {
        match self.seats.place(place) {
            Some(place) => place.is_silent(),
            None => false,
        }
    }

    fn has_trouble(&self) -> bool {
        let alarm = &self.passage.shared.alarm;
        let rings = alarm.is_ringing();
        alarm.stop();
        rings
    }

    fn tell(&mut self, place: usize, end: SessionEnd) {
        let Some(guest) = self.take_guest(place) else {
            return;
        };
        self.door.note(guest.number, PeerEnd::Session(end));
        self.see_off(place, guest);
    }
}
