// The commands after the seal, and the command of any bytes.
ghost use Rattle.std.specs.Prelude.{◌≡◌, length};
ghost use Rattle.rules.specs.Lines.{used};
ghost use Rattle.request.specs.Request.{request_of, reading_of};
ghost use Rattle.processor.specs.Left.{LeavesOne};
ghost use Rattle.records.specs.Left.{Leaves, LeavesOver};
ghost use Rattle.outcome.specs.Call.{named_record, thread_in};
ghost use Rattle.command.specs.Lent.{LeavesAll};
ghost use Rattle.command.specs.Command.{declare_thread_command, schedule_thread_command, schedule_command, hardtick_command, stattick_command, resched_command, maybe_preempt_command, donate_command, remove_donation_command, set_critical_command, obey_def, answered_def, command_def};

use outcome::answer::{Answered, changed, ran, refuses};
use outcome::call::{asked, context_of, flags_in, judged, priority_in, thread_named, ticked};
use outcome::prepare::{add_node, declare_cpu, place_cpu, seal, set_shortest};
use processor::words::CpuWords;
use questions::state::State;
use records::memory::Memory;
use records::record::{get, set};
use request::{Asked, Reading, Request};
use sched::preempt::schedule_maybe_preempt;
use sched::schedule::schedule;
use sched_queues::donate::{donate_priority, remove_donated_priority};
use sched_ticks::balance::schedule_stattick;
use sched_ticks::ticks::{schedule_hardtick, schedule_resched};
use thread::{Thread, blank};
use topology::words::NodeWords;

// class and value are the operands as they came in (`priority_in`).
#[tactic(auto, unfolding(crate::specs::Command::declare_thread_command))]
pub fn declare_thread(
    threads: &mut [Thread],
    state: State,
    thread: u64,
    class: u64,
    value: u64,
    pin: Option<u64>,
    used: usize,
) -> Answered
    ensures { LeavesOne (declare_thread_command state thread class value pin used) result threads }
{
    let declared = Thread::new(priority_in(class, value), pin);
    set(threads, thread, declared);
    changed(state, used)
}

// The line shows the CPU chosen.
#[tactic(auto, unfolding(crate::specs::Command::schedule_thread_command))]
pub fn schedule_thread(
    m: &mut Memory<'_>,
    state: State,
    cpu: u64,
    thread: u64,
    used: usize,
) -> Answered
    ensures { LeavesOver (schedule_thread_command state cpu thread used) result m }
{
    let k = context_of(state, cpu);
    let chosen = sched::schedule::schedule_thread(m, k, thread);
    ran(m.cpus(), state, chosen.cpu, chosen.wakeups, used)
}

// Three lines, as are `stattick` and `maybe_preempt`, of which the middle one differs: a function over a closure would be longer than they are, since it asks
// that the closure can be called and says in its clause what it does.
#[tactic(auto, unfolding(crate::specs::Command::schedule_command))]
pub fn schedule_on(m: &mut Memory<'_>, state: State, cpu: u64, flags: u64, used: usize) -> Answered
    ensures { LeavesOver (schedule_command state cpu flags used) result m }
{
    let k = context_of(state, cpu);
    let wakeups = schedule(m, k, flags_in(flags), 0);
    ran(m.cpus(), state, cpu, wakeups, used)
}

#[tactic(auto, unfolding(crate::specs::Command::hardtick_command))]
pub fn hardtick(m: &mut Memory<'_>, state: State, cpu: u64, used: usize) -> Answered
    ensures { Leaves (hardtick_command state cpu used) result m }
{
    let k = context_of(state, cpu);
    schedule_hardtick(m, k);
    ran(m.cpus(), state, cpu, 0, used)
}

#[tactic(auto, unfolding(crate::specs::Command::stattick_command))]
pub fn stattick(
    m: &mut Memory<'_>,
    state: State,
    cpu: u64,
    nanoseconds: u64,
    used: usize,
) -> Answered
    ensures { LeavesOver (stattick_command state cpu nanoseconds used) result m }
{
    let k = context_of(state, cpu);
    let wakeups = schedule_stattick(m, k, nanoseconds, 0);
    ran(m.cpus(), state, cpu, wakeups, used)
}

// The records are lent to be read alone, as their type says.
#[tactic(auto, unfolding(crate::specs::Command::resched_command))]
pub fn resched(
    threads: &[Thread],
    cpus: &mut [CpuWords],
    state: State,
    cpu: u64,
    used: usize,
) -> Answered
    ensures { LeavesOne (resched_command state cpu used threads.now) result cpus }
{
    schedule_resched(threads, cpus, cpu);
    ran(cpus, state, cpu, 0, used)
}

#[tactic(auto, unfolding(crate::specs::Command::maybe_preempt_command))]
pub fn maybe_preempt(m: &mut Memory<'_>, state: State, cpu: u64, used: usize) -> Answered
    ensures { LeavesOver (maybe_preempt_command state cpu used) result m }
{
    let k = context_of(state, cpu);
    let wakeups = schedule_maybe_preempt(m, k, 0);
    ran(m.cpus(), state, cpu, wakeups, used)
}

// class and value are the operands as they came in; the words of the CPUs are lent to be read alone, as their type says.
#[tactic(auto, unfolding(crate::specs::Command::donate_command))]
pub fn donate(
    threads: &mut [Thread],
    cpus: &[CpuWords],
    state: State,
    cpu: u64,
    thread: u64,
    class: u64,
    value: u64,
    used: usize,
) -> Answered
    ensures { LeavesOne (donate_command state cpu thread class value used cpus.now) result threads }
{
    let priority = priority_in(class, value);
    let wakeups = donate_priority(threads, cpus, cpu, thread, priority, 0);
    ran(cpus, state, cpu, wakeups, used)
}

#[tactic(auto, unfolding(crate::specs::Command::remove_donation_command))]
pub fn remove_donation(threads: &mut [Thread], state: State, thread: u64, used: usize) -> Answered
    ensures { LeavesOne (remove_donation_command state thread used) result threads }
{
    remove_donated_priority(threads, thread);
    changed(state, used)
}

#[tactic(auto, unfolding(crate::specs::Command::set_critical_command))]
pub fn set_critical(
    threads: &mut [Thread],
    state: State,
    thread: u64,
    mark: u64,
    used: usize,
) -> Answered
    ensures { LeavesOne (set_critical_command state thread mark used) result threads }
{
    sched_queues::donate::set_critical(threads, thread, mark);
    changed(state, used)
}

// The case of the command, read from bytes or made of numbers (`Call`). Here and above up to C the three slices stand apart: commands before the seal change
// the nodes, which a `Memory` reads, as its type says.
#[tactic(auto, unfolding(crate::specs::Command::obey_def, request::specs::Request::request_of))]
pub fn obey(
    threads: &mut [Thread],
    cpus: &mut [CpuWords],
    nodes: &mut [NodeWords],
    state: State,
    asked: Asked,
) -> Answered
    ensures { LeavesAll (obey_def state (request_of asked.request) asked.used) result threads cpus nodes }
{
    let Asked { request, used } = asked;
    let m = &mut Memory {
        threads,
        cpus,
        nodes,
    };
    match request {
        Request::DeclareCpu { cpu } => declare_cpu(cpus, state, cpu, used),
        Request::AddNode { parent, kind } => add_node(nodes, state, parent, kind, used),
        Request::PlaceCpu { node, cpu } => place_cpu(cpus, nodes, state, node, cpu, used),
        Request::Seal => seal(state, used),
        Request::SetShortest { ticks } => set_shortest(state, ticks, used),
        Request::DeclareThread {
            thread,
            class,
            value,
            pin,
        } => declare_thread(threads, state, thread, class, value, pin, used),
        Request::SetTick { tick } => changed(ticked(state, tick), used),
        Request::ScheduleThread { cpu, thread } => schedule_thread(m, state, cpu, thread, used),
        Request::Schedule { cpu, flags } => schedule_on(m, state, cpu, flags, used),
        Request::Hardtick { cpu } => hardtick(m, state, cpu, used),
        Request::Stattick { cpu, nanoseconds } => stattick(m, state, cpu, nanoseconds, used),
        Request::Resched { cpu } => resched(threads, cpus, state, cpu, used),
        Request::MaybePreempt { cpu } => maybe_preempt(m, state, cpu, used),
        Request::Donate {
            cpu,
            thread,
            class,
            value,
        } => donate(threads, cpus, state, cpu, thread, class, value, used),
        Request::RemoveDonation { thread } => remove_donation(threads, state, thread, used),
        Request::SetCritical { thread, mark } => set_critical(threads, state, thread, mark, used),
    }
}

// How many bytes what was read takes.
#[tactic(auto, unfolding(rules::specs::Lines::used, request::specs::Request::reading_of))]
fn taken(reading: Reading) -> usize
    ensures { result ≡ used (reading_of reading) }
{
    reading.map_or(0, |asked| asked.used)
}

// The record of the thread that is named, blank where there is none.
#[tactic(auto, unfolding(outcome::specs::Call::named_record))]
fn named(threads: &[Thread], reading: Reading) -> Thread
    ensures { result ≡ named_record threads.now (thread_in (reading_of reading)) }
{
    thread_named(reading).map_or(blank(), |x| get(threads, x))
}

// The command that was read. "A no gives the number, changes nothing."
pub fn command_read(
    threads: &mut [Thread],
    cpus: &mut [CpuWords],
    nodes: &mut [NodeWords],
    state: State,
    reading: Reading,
) -> Answered
    ensures { LeavesAll (answered_def state reading) result threads cpus nodes }
{
    let t = named(threads, reading);
    match judged(cpus, nodes, state, t, reading) {
        Ok(asked) => obey(threads, cpus, nodes, state, asked),
        Err(refusal) => refuses(state, Some(refusal), taken(reading)),
    }
}

// The command that the bytes ask for.
#[tactic(auto, unfolding(crate::specs::Command::command_def))]
pub fn command(
    threads: &mut [Thread],
    cpus: &mut [CpuWords],
    nodes: &mut [NodeWords],
    bytes: &[u8],
    state: State,
) -> Answered
    ensures { LeavesAll (command_def (length bytes.now) 0 state bytes.now) result threads cpus nodes }
{
    let reading = asked(bytes, bytes.len(), 0, state.wide);
    command_read(threads, cpus, nodes, state, reading)
}
