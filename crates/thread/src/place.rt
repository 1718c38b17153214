// Where a thread is, its link, and the mark that it is critical.
ghost use Rattle.std.specs.Prelude.{◌≡◌, eqb};
ghost use Rattle.thread.specs.Thread.{BLOCKED, with_place, with_next, with_critical};
ghost use Rattle.thread.specs.Reads.{critical_in};
ghost use Rattle.thread.specs.Place.{number, place_in, is_declared, pin_number, new};

use crate::priority::raw;
use crate::time::field_of;
use crate::{BLOCKED, RUNNING, Thread, WAITING, blank};
use rules::Priority;

// The number of a place is the one that its record holds.
#[derive(Clone, Copy, PartialEq, Eq)]
pub enum Place {
    Undeclared = 0,
    Blocked = 1,
    Running = 2,
    Waiting = 3,
}

impl From<Place> for u64 {
    ghost from_gives = { λ place r. r ≡ number place };

    fn from(place: Place) -> u64 {
        place as u64
    }
}

// The place that a number says: any number of no other place is Undeclared.
impl From<u64> for Place {
    ghost from_gives = { λ n r. r ≡ place_in n };

    #[tactic(auto, unfolding(crate::specs::Place::place_in))]
    fn from(number: u64) -> Place {
        match number {
            BLOCKED => Place::Blocked,
            RUNNING => Place::Running,
            WAITING => Place::Waiting,
            _ => Place::Undeclared,
        }
    }
}

impl Thread {
    // A declared thread, blocked, of this priority, pinned to this CPU if there is one.
    #[tactic(auto, unfolding(crate::specs::Place::new, crate::specs::Place::pin_number, crate::specs::Time::field_of))]
    pub fn new(priority: Priority, pin: Option<u64>) -> Self
        ensures { result ≡ new priority (pin_number pin) }
    {
        let own = raw(priority);
        Thread {
            priority: own,
            stable_priority: own,
            place: BLOCKED,
            pinned_cpu: pin.map_or(-1, field_of),
            ..blank()
        }
    }

    pub fn place(self) -> Place
        ensures { result ≡ place_in self.place }
    {
        Place::from(self.place)
    }

    #[tactic(auto, unfolding(crate::specs::Place::is_declared))]
    pub fn is_declared(self) -> bool
        ensures { result ≡ is_declared (place_in self.place) }
    {
        self.place() != Place::Undeclared
    }

    #[tactic(auto, unfolding(crate::specs::Place::place_in))]
    pub fn is_blocked(self) -> bool
        ensures { result ≡ eqb self.place BLOCKED }
    {
        self.place() == Place::Blocked
    }

    #[tactic(auto, unfolding(crate::specs::Thread::with_place))]
    pub fn with_place(mut self, place: Place) -> Thread
        ensures { result ≡ with_place self (number place) }
    {
        self.place = u64::from(place);
        self
    }

    // The thread that comes after this one in its list.
    #[tactic(auto, unfolding(crate::specs::Thread::with_next))]
    pub fn set_next(mut self, next: u64) -> Thread
        ensures { result ≡ with_next self next }
    {
        self.next = next;
        self
    }

    #[tactic(auto, unfolding(crate::specs::Thread::with_critical))]
    pub fn set_critical(mut self, mark: u64) -> Thread
        ensures { result ≡ with_critical self mark }
    {
        self.critical = mark;
        self
    }

    #[tactic(auto, unfolding(crate::specs::Reads::critical_in))]
    pub fn is_critical(self) -> bool
        ensures { result ≡ critical_in self.critical }
    {
        self.critical != 0
    }
}
