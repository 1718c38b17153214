// What a choice of a CPU comes to (processor/sched.rs).

// A CPU with its score.
#[derive(Clone, Copy)]
pub struct Best {
    pub score: u64,
    pub cpu: u64,
}

// The CPU with the lowest score of those looked at, and the draw state after their draws.
#[derive(Clone, Copy)]
pub struct Searched {
    pub found: Option<Best>,
    pub draws: u64,
}

// The highest score, and the lowest of the CPUs that did not raise the highest.
#[derive(Clone, Copy)]
pub struct Extremes {
    pub highest: u64,
    pub highest_score: u64,
    pub lowest: Option<Best>,
    pub draws: u64,
}

// The CPU that gives a thread and the one that gets it.
#[derive(Clone, Copy)]
pub struct Pair {
    pub donor: u64,
    pub recipient: u64,
}

// A donor and a recipient, or nothing, and the draw state after the draws.
#[derive(Clone, Copy)]
pub struct Chosen {
    pub found: Option<Pair>,
    pub draws: u64,
}
