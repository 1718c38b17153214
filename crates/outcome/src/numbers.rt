// A command as plain numbers, for a caller that has no bytes of one.
ghost use Rattle.std.specs.Prelude.{◌≡◌};
ghost use Rattle.request.specs.Request.{request_of, reading_of};
ghost use Rattle.outcome.specs.Numbers.{prepared_by, request_by, call_in, call_of, call_read};

use request::{Asked, Reading, Request};
use thread::NONE;

// The command byte; the CPU, thread and node that are named; a number: type, shortest timeslice, tick, flags, nanoseconds or mark; class, value, and pin, NONE
// for none; and the bytes that the command takes. Any numbers may stand here: `Asked` is made of all of them.
#[derive(Clone, Copy)]
pub struct Call {
    pub kind: u64,
    pub cpu: u64,
    pub thread: u64,
    pub node: u64,
    pub number: u64,
    pub class: u64,
    pub value: u64,
    pub pin: u64,
    pub used: usize,
}

impl Call {
    // A command before the seal: each number but hex 01 to 04 is read as hex 05.
    #[tactic(auto, unfolding(crate::specs::Numbers::prepared_by, request::specs::Request::request_of))]
    pub fn prepared(self) -> Request
        ensures { request_of result ≡ prepared_by self }
    {
        match self.kind {
            0x01 => Request::DeclareCpu { cpu: self.cpu },
            0x02 => Request::AddNode {
                parent: self.node,
                kind: self.number,
            },
            0x03 => Request::PlaceCpu {
                node: self.node,
                cpu: self.cpu,
            },
            0x04 => Request::Seal,
            _ => Request::SetShortest { ticks: self.number },
        }
    }

    // A number below hex 10 is read as a command before the seal, and one past hex 19 as hex 1A.
    #[tactic(auto, unfolding(crate::specs::Numbers::request_by, request::specs::Request::request_of))]
    fn request(self) -> Request
        ensures { request_of result ≡ request_by self }
    {
        let Call {
            cpu,
            thread,
            number,
            class,
            value,
            ..
        } = self;
        match self.kind {
            0x00..0x10 => self.prepared(),
            0x10 => Request::DeclareThread {
                thread,
                class,
                value,
                pin: (self.pin != NONE).then_some(self.pin),
            },
            0x11 => Request::SetTick { tick: number },
            0x12 => Request::ScheduleThread { cpu, thread },
            0x13 => Request::Schedule { cpu, flags: number },
            0x14 => Request::Hardtick { cpu },
            0x15 => Request::Stattick {
                cpu,
                nanoseconds: number,
            },
            0x16 => Request::Resched { cpu },
            0x17 => Request::MaybePreempt { cpu },
            0x18 => Request::Donate {
                cpu,
                thread,
                class,
                value,
            },
            0x19 => Request::RemoveDonation { thread },
            _ => Request::SetCritical {
                thread,
                mark: number,
            },
        }
    }
}

impl From<Call> for Asked {
    ghost from_gives = { λ call r. (request_of r.request ≡ request_by call) × (r.used ≡ call.used) };

    fn from(call: Call) -> Asked {
        Asked {
            request: call.request(),
            used: call.used,
        }
    }
}

// A command without class, value and pin. By position, as the next: with `..` of a blank call each arm of `numbers` would take four lines.
fn plain(kind: u64, cpu: u64, thread: u64, node: u64, number: u64, used: usize) -> Call
    ensures { result ≡ call_in kind cpu thread node number 0 0 0 used }
{
    Call {
        kind,
        cpu,
        thread,
        node,
        number,
        class: 0,
        value: 0,
        pin: 0,
        used,
    }
}

// One with them.
fn with_priority(
    kind: u64,
    cpu: u64,
    thread: u64,
    class: u64,
    value: u64,
    pin: u64,
    used: usize,
) -> Call
    ensures { result ≡ call_in kind cpu thread 0 0 class value pin used }
{
    Call {
        kind,
        cpu,
        thread,
        node: 0,
        number: 0,
        class,
        value,
        pin,
        used,
    }
}

#[tactic(auto, unfolding(crate::specs::Numbers::call_of, request::specs::Request::request_of, thread::specs::Place::pin_number))]
fn numbers(request: Request, used: usize) -> Call
    ensures { result ≡ call_of (request_of request) used }
{
    match request {
        Request::DeclareCpu { cpu } => plain(0x01, cpu, NONE, 0, 0, used),
        Request::AddNode { parent, kind } => plain(0x02, 0, NONE, parent, kind, used),
        Request::PlaceCpu { node, cpu } => plain(0x03, cpu, NONE, node, 0, used),
        Request::Seal => plain(0x04, 0, NONE, 0, 0, used),
        Request::SetShortest { ticks } => plain(0x05, 0, NONE, 0, ticks, used),
        Request::DeclareThread {
            thread,
            class,
            value,
            pin,
        } => with_priority(0x10, 0, thread, class, value, pin.unwrap_or(NONE), used),
        Request::SetTick { tick } => plain(0x11, 0, NONE, 0, tick, used),
        Request::ScheduleThread { cpu, thread } => plain(0x12, cpu, thread, 0, 0, used),
        Request::Schedule { cpu, flags } => plain(0x13, cpu, NONE, 0, flags, used),
        Request::Hardtick { cpu } => plain(0x14, cpu, NONE, 0, 0, used),
        Request::Stattick { cpu, nanoseconds } => plain(0x15, cpu, NONE, 0, nanoseconds, used),
        Request::Resched { cpu } => plain(0x16, cpu, NONE, 0, 0, used),
        Request::MaybePreempt { cpu } => plain(0x17, cpu, NONE, 0, 0, used),
        Request::Donate {
            cpu,
            thread,
            class,
            value,
        } => with_priority(0x18, cpu, thread, class, value, 0, used),
        Request::RemoveDonation { thread } => plain(0x19, 0, thread, 0, 0, used),
        Request::SetCritical { thread, mark } => plain(0x1a, 0, thread, 0, mark, used),
    }
}

// What was read, as numbers: what a command does not name is 0, a thread NONE; kind 0 where it is no command. Under a name, since
// callers ask for the numbers of a reading: a `From` would say less of what is made of what.
#[tactic(auto, unfolding(crate::specs::Numbers::call_read, request::specs::Request::reading_of))]
pub fn call_of(reading: Reading) -> Call
    ensures { result ≡ call_read (reading_of reading) }
{
    match reading {
        Err(_) => plain(0, 0, NONE, 0, 0, 0),
        Ok(Asked { request, used }) => numbers(request, used),
    }
}
