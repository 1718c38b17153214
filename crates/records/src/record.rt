// One record of the lent slice is read and written. Past the end of the slice a record is blank, and a write does nothing.
ghost use Rattle.std.specs.Prelude.{◌≡◌, length, get_or, set, replicate};
ghost use Rattle.thread.specs.Thread.{blank};

use thread::{Thread, blank};

pub fn get(threads: &[Thread], i: u64) -> Thread
    ensures { result ≡ get_or threads.now i blank }
{
    threads.get(i as usize).map_or_else(blank, |t| *t)
}

// A record is changed by a read and this write: a function that takes the change as a closure would have a `requires` on it and a longer clause.
// By index: the contract of a slice's `get_mut` does not say what a write through it leaves of the slice.
pub fn set(threads: &mut [Thread], i: u64, t: Thread)
    ensures { threads.new ≡ set threads.old i t }
{
    let k = i as usize;
    if k < threads.len() {
        threads[k] = t;
    }
}

// Every record is blank, as the library's start makes it.
pub fn clear(threads: &mut [Thread])
    ensures { threads.new ≡ replicate (length threads.old) blank }
{
    threads.fill(blank());
}
