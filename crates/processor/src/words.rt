// The words of all CPUs, WORDS to a CPU. Past the last CPU a word is 0, and a store does nothing. C lends them, so NONE stands in a word for none. The words
// of nodes have functions of their own (topology), of the same four lines under definitions that the laws of each cite: common ones, of any number of words, would
// answer by `checked_rem` a `None` that cannot come, in a crate of their own below both.
// Words and CPU are two parameters throughout: a function asks one CPU of the lent words, so a struct of both would be made at each call, and clauses would name
// both its fields.
ghost use Rattle.std.specs.Prelude.{◌≡◌};
ghost use Rattle.processor.specs.Words.{word, put_word};

pub const WORDS: usize = 96;

// The words of one CPU.
pub type CpuWords = [u64; WORDS];

// The words of the run queue are the first 72. Of them are read by themselves:
pub const CURRENT_PRIORITY: usize = 61;

pub const LOAD: usize = 62;

// Named in C's header too, and asked by nothing here.
pub const TIMESHARE_LOAD: usize = 63;

pub const MOVABLE: usize = 64;

// 1 for a declared CPU.
pub const DECLARED: usize = 72;

// The node on which it was put, NONE before.
pub const PLACED: usize = 73;

// The thread that it runs, NONE for its idle thread.
pub const RUNNING: usize = 74;

// The priority, raw, of the thread last switched to.
pub const OWN_PRIORITY: usize = 75;

// 1 while it runs its idle thread.
pub const IS_IDLE: usize = 76;

pub const MUST_REBALANCE: usize = 77;

// The preemption mark.
pub const PREEMPT: usize = 78;

// The state of its draws.
pub const RAND_STATE: usize = 79;

// What is left until it balances.
pub const CUR_REBALANCE_TIME: usize = 80;

// What its idle thread has paid of its timeslice.
pub const IDLE_TIMESLICE: usize = 81;

#[tactic(auto, using(crate::proofs::Laws::Words::word_out), unfolding(crate::specs::Words::word))]
pub fn word(cpus: &[CpuWords], c: u64, w: usize) -> u64
    ensures { result ≡ word cpus.now c w }
{
    cpus.get(c as usize).map_or(0, |row| row[w % WORDS])
}

#[tactic(auto, using(crate::proofs::Laws::Words::put_out), unfolding(crate::specs::Words::put_word))]
pub fn put_word(cpus: &mut [CpuWords], c: u64, w: usize, v: u64)
    ensures { cpus.new ≡ put_word cpus.old c w v }
{
    // The length is asked, since `get_mut` does not say what the slice becomes.
    let i = c as usize;
    if i < cpus.len() {
        cpus[i][w % WORDS] = v;
    }
}
