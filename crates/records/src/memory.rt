// The memory that the caller lends.
ghost use Rattle.std.specs.Prelude.{◌≡◌, get_or, set};
ghost use Rattle.thread.specs.Thread.{blank};
ghost use Rattle.records.specs.Left.{Becomes, on_threads};

use crate::record::{get, set};
use processor::words::CpuWords;
use thread::Thread;
use topology::words::NodeWords;

// The thread records and the words of the CPUs, which the scheduler changes, and the words of the nodes, which it reads. Threads and CPUs are read by
// methods: of such a field that is passed to be read the check keeps the length alone, unless a line before lends it anew (`let cpus = &mut *m.cpus;`). The nodes
// need no method, and none could lend them while the CPUs are lent to be changed.
#[derive(Drop)]
pub struct Memory<'a> {
    pub threads: &'a mut [Thread],
    pub cpus: &'a mut [CpuWords],
    pub nodes: &'a [NodeWords],
}

impl Memory<'_> {
    // The record of thread x.
    pub fn thread(&self, x: u64) -> Thread
        ensures { result ≡ get_or self.now.threads.now x blank }
    {
        get(self.threads, x)
    }

    // The record of thread x becomes t.
    pub fn set_thread(&mut self, x: u64, t: Thread)
        ensures { Becomes (on_threads (λ cs ts. set ts x t)) self }
    {
        set(self.threads, x, t);
    }

    pub fn cpus(&self) -> &[CpuWords]
        ensures { result.now ≡ self.now.cpus.now }
    {
        self.cpus
    }
}
