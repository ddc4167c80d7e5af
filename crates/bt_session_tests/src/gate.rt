//! A gate in memory, whose connections do what rows say, when they say it.
ghost use Rattle.std.specs.Prelude.{◌≡◌, ⊤};

use crate::member::{Member, MemberReader, MemberWriter};
use crate::tale::{Happening, Tale};
use bt_devices::Alarm;
use bt_session::SessionEnd;
use bt_swarm::{Due, Gate};
use std::alloc::Global;

/// Gives one connection after the other, each from its round on, and rings as devices do.
#[derive(Drop)]
pub struct MemoryGate<'a> {
    alloc: Global,
    members: &'a [Member],
    /// Which of them comes next.
    next: usize,
    /// The rounds in which the peers to serve are to be chosen anew.
    choices: &'a [u64],
    tale: &'a Tale,
    alarm: &'a Alarm,
    waits: u64,
}

impl<'a> MemoryGate<'a> {
    pub fn new(
        alloc: Global,
        members: &'a [Member],
        choices: &'a [u64],
        tale: &'a Tale,
        alarm: &'a Alarm,
    ) -> Self
        ensures { result.waits ≡ 0 }
    {
        MemoryGate {
            alloc,
            members,
            next: 0,
            choices,
            tale,
            alarm,
            waits: 0,
        }
    }

    /// The connection that has a place.
    fn member_at(&self, place: usize) -> Option<&'a Member> {
        for member in self.members {
            if member.has_place(place) {
                return Some(member);
            }
        }
        None
    }

    fn begin_rounds(&self) {
        for member in self.members {
            member.begin_round();
        }
    }
}

impl<'a> Gate for MemoryGate<'a> {
    type R = MemberReader<'a>;

    type W = MemberWriter<'a>;

    ghost gives = { λ reader writer. ⊤ };

    ghost waits = { λ gate. gate.waits };

    ghost is_shut = { λ gate. ⊤ };

    ghost is_troubled = { λ gate. ⊤ };

    ghost leads = { λ before passed after. ⊤ };

    ghost leads_nowhere = { λ gate. tt };

    ghost leads_on = { λ a b c first more before after. tt };

    fn wait(&mut self, at_once: bool) -> Due {
        self.waits += 1;
        self.tale.begin_round(at_once);
        self.begin_rounds();
        Due {
            choice: self.choices.contains(&self.waits),
        }
    }

    fn is_over(&self) -> bool {
        self.next >= self.members.len() || self.tale.is_late()
    }

    fn accept(&mut self, place: usize) -> Option<(MemberReader<'a>, MemberWriter<'a>)> {
        let tale = self.tale;
        let member = self.members.get(self.next)?;
        if member.script.round > self.waits || tale.is_late() {
            return None;
        }
        if self.member_at(place).is_some() {
            // Another one has this place.
            tale.fail();
        }
        self.next += 1;
        member.come(place);
        tale.add(member.number(), Happening::Comes(place));
        let writer = MemberWriter::new(self.alloc, member, tale);
        Some((MemberReader { member, tale }, writer))
    }

    fn is_ready(&self, place: usize) -> bool {
        match self.member_at(place) {
            Some(member) => member.is_ready(),
            None => false,
        }
    }

    fn is_silent(&self, place: usize) -> bool {
        match self.member_at(place) {
            Some(member) => member.script.silent.contains(&self.waits),
            None => false,
        }
    }

    fn has_trouble(&self) -> bool {
        let rang = self.alarm.is_ringing();
        self.alarm.stop();
        rang
    }

    fn tell(&mut self, place: usize, end: SessionEnd) {
        match self.member_at(place) {
            Some(member) => {
                member.go(end);
                self.tale.add(member.number(), Happening::Goes(end));
            }
            // Nobody has this place, so nobody goes.
            None => self.tale.fail(),
        }
    }
}
