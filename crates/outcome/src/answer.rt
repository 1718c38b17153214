// What a call answers.
ghost use Rattle.std.specs.Prelude.{◌≡◌, None};
ghost use Rattle.outcome.specs.Answer.{accepted, nothing_shown, refuses, changed, running_in, shown, ran};

use lines::{Answer, Refusal};
use processor::words::{CpuWords, LOAD, RUNNING, word};
use questions::state::State;
use rules::Running;
use thread::NONE;

// The answer that a line shows, the bytes that the command took, and the state for the next call. The functions of a command are given the state and the
// number of bytes apart. Tried as one struct for the commands before the seal: each clause names both parts, and what changes the state makes the struct anew.
#[derive(Clone, Copy)]
pub struct Answered {
    pub answer: Answer,
    pub used: usize,
    pub state: State,
}

// One command more is accepted.
#[tactic(auto, unfolding(crate::specs::Answer::accepted))]
pub fn accepted(state: State) -> State
    ensures { result ≡ accepted state }
{
    State {
        accepted: state.accepted.wrapping_add(1),
        ..state
    }
}

#[tactic(auto, unfolding(crate::specs::Answer::nothing_shown))]
pub fn nothing_shown(refusal: Option<Refusal>) -> Answer
    ensures { result ≡ nothing_shown refusal }
{
    Answer {
        refusal,
        cpu: None,
        running: None,
        load: None,
        wakeups: None,
    }
}

// A refused command leaves the state as it was.
#[tactic(auto, unfolding(crate::specs::Answer::refuses))]
pub fn refuses(state: State, refusal: Option<Refusal>, used: usize) -> Answered
    ensures { result ≡ refuses state refusal used }
{
    Answered {
        answer: nothing_shown(refusal),
        used,
        state,
    }
}

// A command whose line shows nothing, with the state that it left.
#[tactic(auto, unfolding(crate::specs::Answer::changed))]
pub fn changed(state: State, used: usize) -> Answered
    ensures { result ≡ changed state used }
{
    Answered {
        answer: nothing_shown(None),
        used,
        state: accepted(state),
    }
}

// What a CPU runs, of the word that says it, NONE for the idle thread. No `From`: both types are of other crates.
#[tactic(auto, unfolding(crate::specs::Answer::running_in))]
pub fn running_in(x: u64) -> Running
    ensures { result ≡ running_in x }
{
    if x == NONE {
        Running::Idle
    } else {
        Running::Thread(x)
    }
}

// What is shown of CPU c.
#[tactic(auto, unfolding(crate::specs::Answer::shown))]
pub fn shown(cpus: &[CpuWords], c: u64, wakeups: u64) -> Answer
    ensures { result ≡ shown cpus.now c wakeups }
{
    let running = word(cpus, c, RUNNING);
    let load = word(cpus, c, LOAD);
    Answer {
        refusal: None,
        cpu: Some(c),
        running: Some(running_in(running)),
        load: Some(load),
        wakeups: Some(wakeups),
    }
}

// A command that a CPU ran.
#[tactic(auto, unfolding(crate::specs::Answer::ran))]
pub fn ran(cpus: &[CpuWords], state: State, c: u64, wakeups: u64, used: usize) -> Answered
    ensures { result ≡ ran cpus.now state c wakeups used }
{
    Answered {
        answer: shown(cpus, c, wakeups),
        used,
        state: accepted(state),
    }
}
