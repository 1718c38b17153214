// The thread that runs on a CPU, and its marks (processor.rs).
ghost use Rattle.std.specs.Prelude.{◌≡◌, eqb};
ghost use Rattle.thread.specs.Thread.{NONE};
ghost use Rattle.processor.specs.Words.{put_word};
ghost use Rattle.processor.specs.Word.{IS_IDLE, MUST_REBALANCE};
ghost use Rattle.sched_words.specs.Running.{running_at, must_rebalance_def, ran_by_def, ran_idle_def};

use processor::words::{CpuWords, IS_IDLE, MUST_REBALANCE, OWN_PRIORITY, RUNNING, put_word, word};
use thread::priority::raw;
use thread::{NONE, Thread};

// The thread that CPU c runs, as the word holds it; NONE: its idle thread.
#[tactic(auto, unfolding(crate::specs::Running::running_at))]
pub fn running(cpus: &[CpuWords], c: u64) -> u64
    ensures { result ≡ running_at cpus.now c }
{
    word(cpus, c, RUNNING)
}

// Is the thread running, cur, the idle thread? The rules' question, a word that callers cite.
pub fn is_idle(cur: u64) -> bool
    ensures { result ≡ eqb cur NONE }
{
    cur == NONE
}

// These four have the Rust's names, one store each; what they share is `put_word`.
pub fn enter_idle(cpus: &mut [CpuWords], c: u64)
    ensures { cpus.new ≡ put_word cpus.old c IS_IDLE 1 }
{
    put_word(cpus, c, IS_IDLE, 1);
}

pub fn exit_idle(cpus: &mut [CpuWords], c: u64)
    ensures { cpus.new ≡ put_word cpus.old c IS_IDLE 0 }
{
    put_word(cpus, c, IS_IDLE, 0);
}

pub fn set_rebalance(cpus: &mut [CpuWords], c: u64)
    ensures { cpus.new ≡ put_word cpus.old c MUST_REBALANCE 1 }
{
    put_word(cpus, c, MUST_REBALANCE, 1);
}

pub fn reset_rebalance(cpus: &mut [CpuWords], c: u64)
    ensures { cpus.new ≡ put_word cpus.old c MUST_REBALANCE 0 }
{
    put_word(cpus, c, MUST_REBALANCE, 0);
}

// Does its mark ask for another CPU for the thread running?
#[tactic(auto, unfolding(crate::specs::Running::must_rebalance_def))]
pub fn must_rebalance(cpus: &[CpuWords], c: u64) -> bool
    ensures { result ≡ must_rebalance_def cpus.now c }
{
    word(cpus, c, MUST_REBALANCE) != 0
}

// CPU c runs thread x, whose record is t.
#[tactic(auto, unfolding(crate::specs::Running::ran_by_def))]
pub fn run_thread(cpus: &mut [CpuWords], c: u64, x: u64, t: Thread)
    ensures { cpus.new ≡ ran_by_def cpus.old c x t }
{
    put_word(cpus, c, OWN_PRIORITY, raw(t.effective_priority()));
    exit_idle(cpus, c);
    reset_rebalance(cpus, c);
    put_word(cpus, c, RUNNING, x);
}

// CPU c runs its idle thread.
#[tactic(auto, unfolding(crate::specs::Running::ran_idle_def))]
pub fn run_idle(cpus: &mut [CpuWords], c: u64)
    ensures { cpus.new ≡ ran_idle_def cpus.old c }
{
    enter_idle(cpus, c);
    put_word(cpus, c, OWN_PRIORITY, 0);
    reset_rebalance(cpus, c);
    put_word(cpus, c, RUNNING, NONE);
}
