// The stored operations on four run queues (stdin; oracle/vectors/README.md), each put to lent thread records and CPU words by the functions of crate
// records; the answers are written as those of the original rq.rs and timeshare.rs are stored (stdout). 16 bytes to an operation, 48 to an answer.
#![tactic(auto)]

mod answer;
mod operation;

use answer::answer;
use files::read_full;
use operation::{Action, Operation, prepared};
use processor::rq::{load_queue, store_queue};
use records::memory::Memory;
use records::rq::{clock, hardtick, insert, take};
use runqueue::rq::RunQueue;
use std::io::Read;
use thread::{NONE, blank};

const THREADS: usize = 96;

const QUEUES: usize = 4;

// What an operation on a queue answers.
fn act(m: &mut Memory<'_>, queue: u64, action: Action, tick: &mut u64) -> u64 {
    match action {
        Action::Insert(put) => {
            let t = m.thread(put.thread);
            m.set_thread(put.thread, prepared(t, put));
            insert(m, queue, put.thread, *tick, put.current);
            0
        }
        Action::Take => take(m, queue, false).unwrap_or(NONE),
        Action::Steal => take(m, queue, true).unwrap_or(NONE),
        Action::Clock => {
            clock(m.cpus, queue);
            0
        }
        Action::Tick(now) => {
            *tick = now;
            0
        }
        Action::Hardtick => hardtick(m.cpus, queue, *tick),
        Action::Timeslice(class, shortest) => {
            let q = load_queue(m.cpus(), queue);
            q.timeslice(shortest, class)
        }
        Action::Deadline(class, shortest) => {
            let q = load_queue(m.cpus(), queue);
            q.deadline(shortest, class)
        }
        Action::Other => 0,
    }
}

// As many operations as there are, a million at most.
fn drive(stdin: &mut impl Read, stdout: &impl Print, m: &mut Memory<'_>) {
    let mut line = [0u8; 16];
    let mut tick = 0;
    for _ in 0..1000000 {
        if read_full(stdin, &mut line) < line.len() {
            return;
        }
        let Operation { queue, action } = Operation::from(line);
        let number = act(m, queue, action, &mut tick);
        let bytes = answer(load_queue(m.cpus(), queue), action, number);
        let _ = stdout.write_all(&bytes);
    }
}

fn main(rt: HostRuntime) {
    let mut threads = [blank(); THREADS];
    let mut cpus = [[0u64; processor::words::WORDS]; QUEUES];
    for queue in 0..QUEUES as u64 {
        store_queue(&mut cpus, queue, RunQueue::new());
    }
    let mut m = Memory {
        threads: &mut threads,
        cpus: &mut cpus,
        nodes: &[],
    };
    drive(&mut rt.stdin(), &rt.stdout(), &mut m);
}
