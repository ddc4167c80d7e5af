//! Which connection is at which place, of those that are served at once.
ghost use Rattle.std.specs.Prelude.{[], ◌≡◌, ◌-◌, ◌<◌, ◌^◌, slice_index_or, slice_set};
ghost use Rattle.bt_swarm.specs.Passing.{came, went};
ghost use Rattle.bt_together.specs.Seating.{nobody, seat};

use bt_session::SessionEnd;

/// How many connections may be there at once.
const PLACES: usize = 64;

/// Which connection is at which place, of those that are served at once. Connections are numbered from 1 on, as they
/// come.
#[derive(Clone, Copy, Debug, PartialEq, Eq)]
pub struct Seating {
    /// For each place the number of the connection that is there, or 0 where none is.
    pub numbers: [u64; 64],
    /// How many connections have come.
    pub came: u64,
    /// Whether a connection went that was not there.
    pub strays: bool,
}

impl Seating {
    /// No connection has come yet.
    pub(crate) fn new() -> Self
        ensures { result ≡ nobody }
    {
        Seating {
            numbers: [0; PLACES],
            came: 0,
            strays: false,
        }
    }

    /// A connection comes to a place, and gets the next number.
    pub(crate) fn come(&mut self, place: usize)
        requires few { self.old.came < 2 ^ 64 - 1 }
        ensures { self.new ≡ seat self.old (came place) }
    {
        self.came += 1;
        let number = self.came;
        self.put(place, number);
    }

    /// The connection at a place goes. Gives its number, or 0 where none is there.
    pub(crate) fn leave(&mut self, place: usize, end: SessionEnd) -> u64
        ensures number { result ≡ slice_index_or self.old.numbers place 0 }
        ensures seated { self.new ≡ seat self.old (went place end) }
    {
        let number = self.number_at(place);
        self.strays |= number == 0;
        self.put(place, 0);
        number
    }

    /// The number of the connection at a place, or 0 where none is there or there is no such place.
    #[tactic(auto, using(std::proofs::lemmas::List::get_or_past))]
    fn number_at(&self, place: usize) -> u64
        ensures { result ≡ slice_index_or self.now.numbers place 0 }
    {
        if place < PLACES {
            self.numbers[place]
        } else {
            0
        }
    }

    /// Notes the number of the connection at a place, if there is such a place.
    #[tactic(auto, using(std::proofs::lemmas::List::set_past))]
    fn put(&mut self, place: usize, number: u64)
        ensures numbers { self.new.numbers ≡ slice_set self.old.numbers place number }
        ensures came { self.new.came ≡ self.old.came }
        ensures strays { self.new.strays ≡ self.old.strays }
    {
        if place < PLACES {
            self.numbers[place] = number;
        }
    }
}
