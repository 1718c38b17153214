// The record of one thread, with the numbers that the Rust keeps in its atomics.
#![tactic(auto)]

pub mod flags;
pub mod place;
pub mod priority;
pub mod time;

ghost use Rattle.std.specs.Prelude.{◌≡◌};
ghost use Rattle.thread.specs.Thread.{blank};

use place::Place;

// The link number that leads nowhere.
pub const NONE: u64 = u64::MAX;

// The donated priority, raw, where there is no donation: u32::MAX of the Rust.
pub const NO_DONATION: u64 = u32::MAX as u64;

// A thread's places as a record holds them, for patterns and clauses; any other number counts as undeclared.
pub const UNDECLARED: u64 = Place::Undeclared as u64;

pub const BLOCKED: u64 = Place::Blocked as u64;

pub const RUNNING: u64 = Place::Running as u64;

pub const WAITING: u64 = Place::Waiting as u64;

// C lends the records: each field is a plain number, a priority raw, a place as `Place` numbers it, and NONE, NO_DONATION or a negative field for none.
#[repr(C)]
#[derive(Clone, Copy)]
pub struct Thread {
    pub priority: u64,
    pub donated_priority: u64,
    pub stable_priority: u64,
    pub flags: u64,
    pub critical: u64,
    pub place: u64,
    pub next: u64,
    pub last_cpu: i32,
    pub pinned_cpu: i32,
    pub current_processor_queue: i32,
    pub deadline: u64,
    pub timeslice: u64,
}

// An undeclared thread, as the library's start makes each record.
pub fn blank() -> Thread
    ensures { result ≡ blank }
{
    Thread {
        priority: 0,
        donated_priority: NO_DONATION,
        stable_priority: 0,
        flags: 0,
        critical: 0,
        place: UNDECLARED,
        next: NONE,
        last_cpu: -1,
        pinned_cpu: -1,
        current_processor_queue: -1,
        deadline: 0,
        timeslice: 0,
    }
}
