// What a command's functions are told.

// us: the CPU that runs the command; shortest: the shortest User timeslice; limit: CPU numbers are below it.
#[derive(Clone, Copy)]
pub struct Context {
    pub us: u64,
    pub tick: u64,
    pub shortest: u64,
    pub limit: u64,
}

// The flags of `schedule`. The rules' own `Flags` stand in rules/specs, which is read without code.
#[derive(Clone, Copy)]
pub struct SchedFlags {
    pub yields: bool,
    pub preempt: bool,
    pub reinsert: bool,
}

// The CPU chosen for a thread, and the wake-ups.
#[derive(Clone, Copy)]
pub struct Scheduled {
    pub cpu: u64,
    pub wakeups: u64,
}
