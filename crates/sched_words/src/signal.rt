// Wake-ups are only counted, and only those that leave the CPU.
ghost use Rattle.std.specs.Prelude.{◌≡◌};
ghost use Rattle.sched_words.specs.Signal.{signal};

// The wake-ups of a command once CPU `from`, which runs it, has signalled CPU `to`, if it is due.
#[tactic(auto, unfolding(crate::specs::Signal::signal, queue::specs::Num::sum))]
pub fn signal(wakeups: u64, from: u64, to: u64, due: bool) -> u64
    ensures { result ≡ signal wakeups from to due }
{
    if to != from && due {
        wakeups.wrapping_add(1)
    } else {
        wakeups
    }
}
