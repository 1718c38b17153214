// The state between calls, and the questions that it answers.
ghost use Rattle.std.specs.Prelude.{◌≡◌};
ghost use Rattle.questions.specs.Questions.{node_exists, node_fits, tick_fits, room};

// C's struct. The limits: how many CPUs and nodes there may be, the shortest User timeslice, and whether an operand that names a CPU or a node has two bytes. Then
// the tick, whether the topology is sealed, the commands accepted, and the nodes that exist.
#[repr(C)]
#[derive(Clone, Copy, Default)]
pub struct State {
    pub cpus: u64,
    pub nodes: u64,
    pub shortest: u64,
    pub wide: bool,
    pub tick: u64,
    pub sealed: bool,
    pub accepted: u64,
    pub node_count: u64,
}

// A tick is at most 2^62.
pub const MOST_TICK: u64 = 1 << 62;

// Fewer than 4,294,967,295 commands have been accepted.
pub const MOST_ACCEPTED: u64 = u32::MAX as u64;

impl State {
    #[tactic(auto, unfolding(crate::specs::Questions::node_exists, rules::specs::Questions::question))]
    pub fn node_exists(self, n: u64) -> bool
        ensures { result ≡ (node_exists self n).answer }
    {
        n < self.node_count
    }

    #[tactic(auto, unfolding(crate::specs::Questions::node_fits, rules::specs::Questions::question))]
    pub fn node_fits(self) -> bool
        ensures { result ≡ (node_fits self).answer }
    {
        self.node_count < self.nodes
    }

    #[tactic(auto, unfolding(crate::specs::Questions::tick_fits, rules::specs::Questions::question))]
    pub fn tick_fits(self, tick: u64) -> bool
        ensures { result ≡ (tick_fits self tick).answer }
    {
        self.tick <= tick && tick <= MOST_TICK
    }

    #[tactic(auto, unfolding(crate::specs::Questions::room, rules::specs::Questions::question, rules::specs::Questions::most_accepted))]
    pub fn room(self) -> bool
        ensures { result ≡ (room self).answer }
    {
        self.accepted < MOST_ACCEPTED
    }
}
