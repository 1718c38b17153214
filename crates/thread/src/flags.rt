// The flag of thread/flags.rs that the scheduler asks, in a word whose other bits are kept.
ghost use Rattle.std.specs.Prelude.{◌≡◌};
ghost use Rattle.thread.specs.Flags.{has_donated_priority, set_donated_priority, reset_donated_priority};

pub const THREAD_HAS_DONATED_PRIORITY: u64 = 2;

#[tactic(auto, using(crate::proofs::FlagBit::has_is))]
pub fn has_donated_priority(flags: u64) -> bool
    ensures { result ≡ has_donated_priority flags }
{
    flags & THREAD_HAS_DONATED_PRIORITY != 0
}

#[tactic(auto, using(crate::proofs::FlagBit::set_is))]
pub fn set_donated_priority(flags: u64) -> u64
    ensures { result ≡ set_donated_priority flags }
{
    flags | THREAD_HAS_DONATED_PRIORITY
}

#[tactic(auto, using(crate::proofs::FlagBit::reset_is))]
pub fn reset_donated_priority(flags: u64) -> u64
    ensures { result ≡ reset_donated_priority flags }
{
    flags & !THREAD_HAS_DONATED_PRIORITY
}
