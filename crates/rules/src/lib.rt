// The types that document 01 names, shared by its definitions (specs/) and by the code. No functions.
#![tactic(auto)]

pub mod choice;

// Document 01's numbers are those of `class_number` in specs/Priority.antt.
#[derive(Clone, Copy, PartialEq, Eq, PartialOrd, Ord)]
pub enum PriorityClass {
    Idle,
    Background,
    User,
    Realtime,
}

#[derive(Clone, Copy, PartialEq, Eq, PartialOrd, Ord)]
pub struct Priority {
    pub class: PriorityClass,
    pub value: u64,
}

// The parts of a run queue, in the order in which they are served.
#[derive(Clone, Copy)]
pub enum Part {
    Realtime,
    Timeshare,
    Idle,
}

// "thread it now runs or `idle`"
#[derive(Clone, Copy)]
pub enum Running {
    Thread(u64),
    Idle,
}
