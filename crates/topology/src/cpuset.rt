// A set of CPU numbers below 1,024: sixteen words of 64 bits. Other numbers are in no set, and nothing puts them into one.
ghost use Rattle.std.specs.Prelude.{◌≡◌};
ghost use Rattle.topology.specs.CpuSet.{power, bit, set_bit, clear_bit, all, empty, insert, remove, contains, is_empty};

pub const MAX_CPU_ID: u64 = 1024;

#[derive(Clone, Copy)]
pub struct CpuSet {
    pub set: [u64; 16],
}

// The number with bit `i % 64` alone.
#[tactic(auto, using(crate::specs::CpuSet::power_fits))]
pub fn power(i: u64) -> u64
    ensures { result ≡ power i }
{
    1 << (i % 64)
}

// Is bit `i % 64` of the word 1?
#[tactic(auto, using(crate::proofs::Masks::bit_is))]
pub fn bit(word: u64, i: u64) -> bool
    ensures { result ≡ bit word i }
{
    word & power(i) != 0
}

// The word with that bit 1.
#[tactic(auto, using(crate::proofs::Masks::set_is))]
pub fn set_bit(word: u64, i: u64) -> u64
    ensures { result ≡ set_bit word i }
{
    word | power(i)
}

// The word with that bit 0.
#[tactic(auto, using(crate::proofs::Masks::clear_is))]
pub fn clear_bit(word: u64, i: u64) -> u64
    ensures { result ≡ clear_bit word i }
{
    word & !power(i)
}

impl CpuSet {
    #[tactic(auto, unfolding(crate::specs::CpuSet::all))]
    pub fn all() -> Self
        ensures { result ≡ all }
    {
        CpuSet {
            set: [u64::MAX; 16],
        }
    }

    #[tactic(auto, unfolding(crate::specs::CpuSet::empty))]
    pub fn empty() -> Self
        ensures { result ≡ empty }
    {
        CpuSet { set: [0; 16] }
    }

    #[tactic(auto, unfolding(crate::specs::CpuSet::contains, crate::specs::CpuSet::max_cpu_id, crate::specs::CpuSet::word_of))]
    pub fn contains(self, id: u64) -> bool
        ensures { result ≡ contains self id }
    {
        id < MAX_CPU_ID && bit(self.set[(id / 64) as usize], id)
    }

    // This and `remove` set and clear a bit, under a definition each; a common function would take a closure.
    #[tactic(auto, unfolding(crate::specs::CpuSet::insert, crate::specs::CpuSet::max_cpu_id, crate::specs::CpuSet::word_of))]
    pub fn insert(mut self, id: u64) -> Self
        ensures { result ≡ insert self id }
    {
        if id < MAX_CPU_ID {
            let i = (id / 64) as usize;
            self.set[i] = set_bit(self.set[i], id);
        }
        self
    }

    #[tactic(auto, unfolding(crate::specs::CpuSet::remove, crate::specs::CpuSet::max_cpu_id, crate::specs::CpuSet::word_of))]
    pub fn remove(mut self, id: u64) -> Self
        ensures { result ≡ remove self id }
    {
        if id < MAX_CPU_ID {
            let i = (id / 64) as usize;
            self.set[i] = clear_bit(self.set[i], id);
        }
        self
    }

    #[tactic(auto, unfolding(crate::specs::CpuSet::is_empty, crate::specs::CpuSet::no_bits))]
    pub fn is_empty(self) -> bool
        ensures { result ≡ is_empty self }
    {
        self.set.iter().all(|word| *word == 0)
    }
}
