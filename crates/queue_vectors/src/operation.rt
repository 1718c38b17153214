// An operation in its bytes. Numbers are little-endian.
use rules::{Priority, PriorityClass};
use thread::priority::{class_at, raw};
use thread::{NO_DONATION, Thread};

// A thread that is put into a queue.
#[derive(Clone, Copy)]
pub struct Insert {
    pub thread: u64,
    pub priority: Priority,
    pub pinned: bool,
    pub current: bool,
    pub deadline: u64,
}

#[derive(Clone, Copy)]
pub enum Action {
    Insert(Insert),
    Take,
    Steal,
    Clock,
    // The new tick.
    Tick(u64),
    Hardtick,
    // For this class, with this shortest timeslice.
    Timeslice(PriorityClass, u64),
    Deadline(PriorityClass, u64),
    Other,
}

#[derive(Clone, Copy)]
pub struct Operation {
    pub queue: u64,
    pub action: Action,
}

impl From<[u8; 16]> for Operation {
    fn from(line: [u8; 16]) -> Operation {
        let [kind, queue, low, high, class, value, pinned, current, ..] = line;
        let mut number = [0u8; 8];
        number.copy_from_slice(&line[8..]);
        let class = class_at(u64::from(class));
        let number = u64::from_le_bytes(number);
        let action = match kind {
            1 => Action::Insert(Insert {
                thread: u64::from(u16::from_le_bytes([low, high])),
                priority: Priority {
                    class,
                    value: u64::from(value),
                },
                pinned: pinned == 1,
                current: current == 1,
                deadline: number,
            }),
            2 => Action::Take,
            3 => Action::Steal,
            4 => Action::Clock,
            5 => Action::Tick(number),
            6 => Action::Hardtick,
            7 => Action::Timeslice(class, number),
            8 => Action::Deadline(class, number),
            _ => Action::Other,
        };
        Operation {
            queue: u64::from(queue),
            action,
        }
    }
}

// The thread has the priority, the pin and the deadline that an insert names.
pub fn prepared(t: Thread, insert: Insert) -> Thread {
    Thread {
        priority: raw(insert.priority),
        donated_priority: NO_DONATION,
        flags: 0,
        pinned_cpu: if insert.pinned { 0 } else { -1 },
        deadline: insert.deadline,
        ..t
    }
}
