// The questions put to each command, in document 01's order: the first that is answered no gives the refusal.
// Each clause is a list of questions: the proofs open them, and go by whether each is answered yes or no.
#![tactic(auto, using(crate::proofs::Asking::no, crate::proofs::Asking::pin_number, crate::proofs::Asking::yes), unfolding(crate::specs::Questions::answer_number, lines::specs::Lines::question_number, rules::specs::Questions::question, crate::specs::Questions::open_yet, crate::specs::Questions::cpu_new, crate::specs::Questions::node_exists, crate::specs::Questions::parent_without_cpus, crate::specs::Questions::node_fits, crate::specs::Questions::cpu_unplaced, crate::specs::Questions::node_childless, crate::specs::Questions::all_placed, crate::specs::Questions::thread_new, crate::specs::Questions::sealed_now, crate::specs::Questions::tick_fits, crate::specs::Questions::cpu_declared, crate::specs::Questions::thread_declared, crate::specs::Questions::thread_blocked))]

ghost use Rattle.std.specs.Prelude.{◌≡◌, cond, IfOk, Ok, Err, [], ◌∷◌};
ghost use Rattle.rules.specs.Questions.{question, first_no};
ghost use Rattle.request.specs.Request.{request_of, reading_of};
ghost use Rattle.questions.specs.Questions.{open_yet, sealed_now, cpu_declared, cpu_new, cpu_unplaced, pin_declared, thread_declared, thread_new, node_exists, parent_without_cpus, node_fits, node_childless, thread_blocked, tick_fits, all_placed, room, asked_of, answer_number, refusal_in};

use crate::cpu::{all_placed, declared, new, pin_declared, unplaced};
use crate::state::State;
use lines::Refusal;
use processor::words::CpuWords;
use request::{Asked, Reading, Request, Unread};
use thread::Thread;
use topology::node::{has_children, has_cpus};
use topology::words::NodeWords;

// There may be 1,024 threads.
pub const MAX_THREADS: u64 = 1024;

// A question that must be answered yes, or else the command is refused.
fn must(yes: bool, refusal: Refusal) -> Result<(), Refusal>
    ensures { result ≡ cond yes (Ok tt) (Err refusal) }
{
    if yes { Ok(()) } else { Err(refusal) }
}

#[tactic(auto, using(crate::proofs::Asking::all_yes, crate::proofs::Asking::no, crate::proofs::Asking::yes), unfolding(crate::specs::Questions::answer_number, lines::specs::Lines::question_number, rules::specs::Questions::question, crate::specs::Questions::room))]
fn room_left(state: State) -> Result<(), Refusal>
    ensures { answer_number result ≡ first_no (room state ∷ []) }
{
    must(state.room(), Refusal::TooMany)
}

fn declare_cpu(cpus: &[CpuWords], state: State, c: u64) -> Result<(), Refusal>
    ensures { answer_number result ≡ first_no (open_yet state ∷ cpu_new cpus.now state c ∷ room state ∷ []) }
{
    must(!state.sealed, Refusal::WrongSideOfSeal)?;
    must(new(cpus, state, c), Refusal::Cpu)?;
    room_left(state)
}

// Of a new child node, whose type is in range or not.
fn add_node(nodes: &[NodeWords], state: State, p: u64, ranges: bool) -> Result<(), Refusal>
    ensures { answer_number result ≡ first_no (open_yet state ∷ question 6 ranges ∷ node_exists state p ∷ parent_without_cpus nodes.now p ∷ node_fits state ∷ room state ∷ []) }
{
    must(!state.sealed, Refusal::WrongSideOfSeal)?;
    must(ranges, Refusal::OutOfRange)?;
    must(state.node_exists(p), Refusal::OutOfRange)?;
    must(!has_cpus(nodes, p), Refusal::OutOfRange)?;
    must(state.node_fits(), Refusal::OutOfRange)?;
    room_left(state)
}

fn place_cpu(
    cpus: &[CpuWords],
    nodes: &[NodeWords],
    state: State,
    n: u64,
    c: u64,
) -> Result<(), Refusal>
    ensures { answer_number result ≡ first_no (open_yet state ∷ cpu_unplaced cpus.now state c ∷ node_exists state n ∷ node_childless nodes.now n ∷ room state ∷ []) }
{
    must(!state.sealed, Refusal::WrongSideOfSeal)?;
    must(unplaced(cpus, state, c), Refusal::Cpu)?;
    must(state.node_exists(n), Refusal::OutOfRange)?;
    must(!has_children(nodes, n), Refusal::OutOfRange)?;
    room_left(state)
}

fn seal(cpus: &[CpuWords], state: State) -> Result<(), Refusal>
    ensures { answer_number result ≡ first_no (open_yet state ∷ all_placed cpus.now state ∷ room state ∷ []) }
{
    must(!state.sealed, Refusal::WrongSideOfSeal)?;
    must(all_placed(cpus, state), Refusal::NotPlaced)?;
    room_left(state)
}

// Of a setting, which is in range or not.
fn setting(state: State, ranges: bool) -> Result<(), Refusal>
    ensures { answer_number result ≡ first_no (open_yet state ∷ question 6 ranges ∷ room state ∷ []) }
{
    must(!state.sealed, Refusal::WrongSideOfSeal)?;
    must(ranges, Refusal::OutOfRange)?;
    room_left(state)
}

// Is thread x new, whose record is t?
fn thread_new(x: u64, t: Thread) -> bool
    ensures { result ≡ (thread_new x t).answer }
{
    x < MAX_THREADS && !t.is_declared()
}

fn declare_thread(
    cpus: &[CpuWords],
    state: State,
    t: Thread,
    x: u64,
    pin: Option<u64>,
    ranges: bool,
) -> Result<(), Refusal>
    ensures { answer_number result ≡ first_no (sealed_now state ∷ pin_declared cpus.now state pin ∷ thread_new x t ∷ question 6 ranges ∷ room state ∷ []) }
{
    must(state.sealed, Refusal::WrongSideOfSeal)?;
    must(pin_declared(cpus, state, pin), Refusal::Cpu)?;
    must(thread_new(x, t), Refusal::Thread)?;
    must(ranges, Refusal::OutOfRange)?;
    room_left(state)
}

fn set_tick(state: State, tick: u64) -> Result<(), Refusal>
    ensures { answer_number result ≡ first_no (sealed_now state ∷ tick_fits state tick ∷ room state ∷ []) }
{
    must(state.sealed, Refusal::WrongSideOfSeal)?;
    must(state.tick_fits(tick), Refusal::Tick)?;
    room_left(state)
}

fn schedule_thread(cpus: &[CpuWords], state: State, t: Thread, c: u64) -> Result<(), Refusal>
    ensures { answer_number result ≡ first_no (sealed_now state ∷ cpu_declared cpus.now state c ∷ thread_declared t ∷ thread_blocked t ∷ room state ∷ []) }
{
    must(state.sealed, Refusal::WrongSideOfSeal)?;
    must(declared(cpus, state, c), Refusal::Cpu)?;
    must(t.is_declared(), Refusal::Thread)?;
    must(t.is_blocked(), Refusal::NotBlocked)?;
    room_left(state)
}

// Of a command that CPU c runs, whose other operands are in range or not.
fn on_cpu(cpus: &[CpuWords], state: State, c: u64, ranges: bool) -> Result<(), Refusal>
    ensures { answer_number result ≡ first_no (sealed_now state ∷ cpu_declared cpus.now state c ∷ question 6 ranges ∷ room state ∷ []) }
{
    must(state.sealed, Refusal::WrongSideOfSeal)?;
    must(declared(cpus, state, c), Refusal::Cpu)?;
    must(ranges, Refusal::OutOfRange)?;
    room_left(state)
}

fn donate(cpus: &[CpuWords], state: State, t: Thread, c: u64, ranges: bool) -> Result<(), Refusal>
    ensures { answer_number result ≡ first_no (sealed_now state ∷ cpu_declared cpus.now state c ∷ thread_declared t ∷ question 6 ranges ∷ room state ∷ []) }
{
    must(state.sealed, Refusal::WrongSideOfSeal)?;
    must(declared(cpus, state, c), Refusal::Cpu)?;
    must(t.is_declared(), Refusal::Thread)?;
    must(ranges, Refusal::OutOfRange)?;
    room_left(state)
}

// Of a command on a thread after the seal.
fn of_thread(state: State, t: Thread, ranges: bool) -> Result<(), Refusal>
    ensures { answer_number result ≡ first_no (sealed_now state ∷ thread_declared t ∷ question 6 ranges ∷ room state ∷ []) }
{
    must(state.sealed, Refusal::WrongSideOfSeal)?;
    must(t.is_declared(), Refusal::Thread)?;
    must(ranges, Refusal::OutOfRange)?;
    room_left(state)
}

// Of a request; t is the record of the thread that it names. Words, state and record stand apart: a question is given those that it asks.
#[tactic(auto, unfolding(crate::specs::Questions::asked_of, crate::specs::Questions::concerning, rules::specs::Questions::first_no, rules::specs::Questions::question, rules::specs::Questions::at_most, rules::specs::Questions::shortest_in_range, rules::specs::Questions::priority_in_range, request::specs::Request::request_of))]
fn asked(
    cpus: &[CpuWords],
    nodes: &[NodeWords],
    state: State,
    t: Thread,
    request: Request,
) -> Result<(), Refusal>
    ensures { answer_number result ≡ asked_of cpus.now nodes.now state t (request_of request) }
{
    let ranges = request.in_range();
    match request {
        Request::DeclareCpu { cpu } => declare_cpu(cpus, state, cpu),
        Request::AddNode { parent, .. } => add_node(nodes, state, parent, ranges),
        Request::PlaceCpu { node, cpu } => place_cpu(cpus, nodes, state, node, cpu),
        Request::Seal => seal(cpus, state),
        Request::SetShortest { .. } => setting(state, ranges),
        Request::DeclareThread { thread, pin, .. } => {
            declare_thread(cpus, state, t, thread, pin, ranges)
        }
        Request::SetTick { tick } => set_tick(state, tick),
        Request::ScheduleThread { cpu, .. } => schedule_thread(cpus, state, t, cpu),
        Request::Schedule { cpu, .. }
        | Request::Hardtick { cpu }
        | Request::Stattick { cpu, .. }
        | Request::Resched { cpu }
        | Request::MaybePreempt { cpu } => on_cpu(cpus, state, cpu, ranges),
        Request::Donate { cpu, .. } => donate(cpus, state, t, cpu, ranges),
        Request::RemoveDonation { .. } | Request::SetCritical { .. } => of_thread(state, t, ranges),
    }
}

// What was read, unless a question is answered no; t is the record of the thread that it names.
#[tactic(auto, unfolding(crate::specs::Questions::answer_number, crate::specs::Questions::refusal_in, request::specs::Request::reading_of, lines::specs::Lines::question_number))]
pub fn refusal_of(
    cpus: &[CpuWords],
    nodes: &[NodeWords],
    state: State,
    t: Thread,
    reading: Reading,
) -> Result<Asked, Refusal>
    ensures refused { answer_number result ≡ refusal_in cpus.now nodes.now state t (reading_of reading) }
    ensures asks { IfOk result (λ a. reading ≡ Ok a) }
{
    match reading {
        Err(Unread::Unknown) => Err(Refusal::UnknownCommand),
        Err(Unread::CutShort) => Err(Refusal::CutShort),
        Ok(read) => {
            asked(cpus, nodes, state, t, read.request)?;
            Ok(read)
        }
    }
}
