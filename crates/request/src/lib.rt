// The bytes of one command, read as a request: the command byte gives the length of its operands, then the case.
#![tactic(auto)]

pub mod fields;

ghost use Rattle.std.specs.Prelude.{◌≡◌, ◌≤◌, length, drop};
ghost use Rattle.rules.specs.Requests.{operand, past, read, pin_of};
ghost use Rattle.rules.specs.Questions.{shortest_in_range, priority_in_range, in_range};
ghost use Rattle.request.specs.Request.{width, limits_of, all_ones_of, request_of, reading_of, operands_of, asked};

// The largest node type, flags and critical mark.
pub const MOST_TYPE: u64 = 3;

pub const MOST_FLAGS: u64 = 7;

pub const MOST_MARK: u64 = 1;

// The least and the most that the shortest User timeslice can be set to.
pub const LEAST_SHORTEST: u64 = 2;

pub const MOST_SHORTEST: u64 = 32;

// What a command asks, its operands as the numbers that came in: only question 6 says whether one means a class or a node type. The rules' own `Request` and
// `Reading` stand in rules/specs, which is read without code; `request_of` and `reading_of` take one to the other.
#[derive(Clone, Copy)]
pub enum Request {
    DeclareCpu {
        cpu: u64,
    },
    AddNode {
        parent: u64,
        kind: u64,
    },
    PlaceCpu {
        node: u64,
        cpu: u64,
    },
    Seal,
    SetShortest {
        ticks: u64,
    },
    DeclareThread {
        thread: u64,
        class: u64,
        value: u64,
        pin: Option<u64>,
    },
    SetTick {
        tick: u64,
    },
    ScheduleThread {
        cpu: u64,
        thread: u64,
    },
    Schedule {
        cpu: u64,
        flags: u64,
    },
    Hardtick {
        cpu: u64,
    },
    Stattick {
        cpu: u64,
        nanoseconds: u64,
    },
    Resched {
        cpu: u64,
    },
    MaybePreempt {
        cpu: u64,
    },
    Donate {
        cpu: u64,
        thread: u64,
        class: u64,
        value: u64,
    },
    RemoveDonation {
        thread: u64,
    },
    SetCritical {
        thread: u64,
        mark: u64,
    },
}

// Why bytes are no command: the first is none, or its operands are not all there.
#[derive(Clone, Copy)]
pub enum Unread {
    Unknown,
    CutShort,
}

// `used` counts the command byte and its operands.
#[derive(Clone, Copy)]
pub struct Asked {
    pub request: Request,
    pub used: usize,
}

// What the bytes of a call say.
pub type Reading = Result<Asked, Unread>;

// How many bytes an operand has that names a CPU or a node.
#[tactic(auto, unfolding(crate::specs::Request::width))]
fn width(wide: bool) -> usize
    ensures { result ≡ width wide }
{
    if wide { 2 } else { 1 }
}

#[tactic(auto, unfolding(crate::specs::Request::all_ones_of, rules::specs::Requests::all_ones, crate::specs::Request::width))]
pub fn all_ones(wide: bool) -> u64
    ensures { result ≡ all_ones_of wide }
{
    if wide { 65535 } else { 255 }
}

// A pin of all ones is none.
#[tactic(auto, unfolding(rules::specs::Requests::pin_of, crate::specs::Request::all_ones_of, crate::specs::Request::limits_of))]
fn pinned(v: u64, wide: bool) -> Option<u64>
    ensures { result ≡ pin_of (limits_of wide) v }
{
    (v != all_ones(wide)).then_some(v)
}

// How many bytes the operands of the command with this byte have; any byte may come, and one that is not in the table has none. Tried as the sum of `widths_of`:
// it proves, and `explain` takes 5 to 6 % more instructions.
#[tactic(auto, using(crate::proofs::Table::no_operands, crate::proofs::Table::width_small), unfolding(crate::specs::Request::operands_of, crate::specs::Request::operands_in, rules::specs::Requests::widths, crate::specs::Request::limits_of, rules::specs::Requests::sum, rules::proofs::Laws::Apart::Apart))]
pub fn operand_bytes(byte: u8, wide: bool) -> Option<usize>
    ensures { result ≡ operands_of wide byte }
{
    let n = width(wide);
    match byte {
        0x01 => Some(n),
        0x02 => Some(n + 1),
        0x03 => Some(n + n),
        0x04 => Some(0),
        0x05 => Some(1),
        0x10 => Some(n + 4),
        0x11 => Some(8),
        0x12 => Some(n + 2),
        0x13 => Some(n + 1),
        0x14 => Some(n),
        0x15 => Some(n + 4),
        0x16 => Some(n),
        0x17 => Some(n),
        0x18 => Some(n + 4),
        0x19 => Some(2),
        0x1a => Some(3),
        _ => None,
    }
}

// The number that bytes stand for, the least first. Where their number is known no loop is left. At most eight: each caller has a literal or a width of the
// table, and for more bytes there would be nothing to say.
#[inline(always)]
fn number(bytes: &[u8]) -> u64
    requires { length bytes.now ≤ 8 }
    ensures { result ≡ operand (length bytes.now) bytes.now }
{
    let mut value = 0;
    for byte in bytes.iter().rev() {
        value = 256 * value + u64::from(*byte);
    }
    value
}

// The operands of a command that are not read yet. One that names a CPU or a node has two bytes if `wide`, else one.
#[derive(Clone, Copy)]
pub(crate) struct Operands<'a> {
    bytes: &'a [u8],
    wide: bool,
}

impl Operands<'_> {
    // The next operand, which has n bytes, a literal or a width of the table: at most eight, as for `number`. Bytes that are not there count as 0.
    #[inline(always)]
    #[tactic(auto, using(crate::proofs::Bytes::operand_front, crate::proofs::Bytes::past_front))]
    fn next(&mut self, n: usize) -> u64
        requires { n ≤ 8 }
        ensures value { result ≡ operand n self.old.bytes.now }
        ensures rest { self.new.bytes.now ≡ past n self.old.bytes.now }
        ensures form { self.new.wide ≡ self.old.wide }
    {
        let (front, rest) = self.bytes.split_at(n.min(self.bytes.len()));
        self.bytes = rest;
        number(front)
    }

    // The next operand, which names a CPU or a node.
    #[tactic(auto, using(crate::proofs::Table::width_small))]
    fn next_name(&mut self) -> u64
        ensures value { result ≡ operand (width self.old.wide) self.old.bytes.now }
        ensures rest { self.new.bytes.now ≡ past (width self.old.wide) self.old.bytes.now }
        ensures form { self.new.wide ≡ self.old.wide }
    {
        let n = width(self.wide);
        self.next(n)
    }
}

#[tactic(auto, unfolding(crate::specs::Request::asked, rules::specs::Requests::request, rules::specs::Requests::widths, rules::specs::Requests::widths_or, crate::specs::Request::limits_of, rules::specs::Requests::operands, rules::specs::Requests::nth, crate::specs::Request::request_of))]
impl Operands<'_> {
    // One for each byte: its operands in their order, by their names.
    fn declare_cpu(mut self) -> Request
        ensures { request_of result ≡ asked self.entry.wide 0x01 self.entry.bytes.now }
    {
        Request::DeclareCpu {
            cpu: self.next_name(),
        }
    }

    fn add_node(mut self) -> Request
        ensures { request_of result ≡ asked self.entry.wide 0x02 self.entry.bytes.now }
    {
        Request::AddNode {
            parent: self.next_name(),
            kind: self.next(1),
        }
    }

    fn place_cpu(mut self) -> Request
        ensures { request_of result ≡ asked self.entry.wide 0x03 self.entry.bytes.now }
    {
        Request::PlaceCpu {
            node: self.next_name(),
            cpu: self.next_name(),
        }
    }

    fn set_shortest(mut self) -> Request
        ensures { request_of result ≡ asked self.entry.wide 0x05 self.entry.bytes.now }
    {
        Request::SetShortest {
            ticks: self.next(1),
        }
    }

    fn declare_thread(mut self) -> Request
        ensures { request_of result ≡ asked self.entry.wide 0x10 self.entry.bytes.now }
    {
        let wide = self.wide;
        Request::DeclareThread {
            thread: self.next(2),
            class: self.next(1),
            value: self.next(1),
            pin: pinned(self.next_name(), wide),
        }
    }

    fn set_tick(mut self) -> Request
        ensures { request_of result ≡ asked self.entry.wide 0x11 self.entry.bytes.now }
    {
        Request::SetTick { tick: self.next(8) }
    }

    fn schedule_thread(mut self) -> Request
        ensures { request_of result ≡ asked self.entry.wide 0x12 self.entry.bytes.now }
    {
        Request::ScheduleThread {
            cpu: self.next_name(),
            thread: self.next(2),
        }
    }

    fn schedule(mut self) -> Request
        ensures { request_of result ≡ asked self.entry.wide 0x13 self.entry.bytes.now }
    {
        Request::Schedule {
            cpu: self.next_name(),
            flags: self.next(1),
        }
    }

    fn hardtick(mut self) -> Request
        ensures { request_of result ≡ asked self.entry.wide 0x14 self.entry.bytes.now }
    {
        Request::Hardtick {
            cpu: self.next_name(),
        }
    }

    fn stattick(mut self) -> Request
        ensures { request_of result ≡ asked self.entry.wide 0x15 self.entry.bytes.now }
    {
        Request::Stattick {
            cpu: self.next_name(),
            nanoseconds: self.next(4),
        }
    }

    fn resched(mut self) -> Request
        ensures { request_of result ≡ asked self.entry.wide 0x16 self.entry.bytes.now }
    {
        Request::Resched {
            cpu: self.next_name(),
        }
    }

    fn maybe_preempt(mut self) -> Request
        ensures { request_of result ≡ asked self.entry.wide 0x17 self.entry.bytes.now }
    {
        Request::MaybePreempt {
            cpu: self.next_name(),
        }
    }

    fn donate(mut self) -> Request
        ensures { request_of result ≡ asked self.entry.wide 0x18 self.entry.bytes.now }
    {
        Request::Donate {
            cpu: self.next_name(),
            thread: self.next(2),
            class: self.next(1),
            value: self.next(1),
        }
    }

    fn remove_donation(mut self) -> Request
        ensures { request_of result ≡ asked self.entry.wide 0x19 self.entry.bytes.now }
    {
        Request::RemoveDonation {
            thread: self.next(2),
        }
    }

    fn set_critical(mut self) -> Request
        ensures { request_of result ≡ asked self.entry.wide 0x1a self.entry.bytes.now }
    {
        Request::SetCritical {
            thread: self.next(2),
            mark: self.next(1),
        }
    }
}

// The case of a command byte; the last one stands for every byte that is not in the table.
#[tactic(auto, using(crate::proofs::Table::last_asked), unfolding(crate::specs::Request::asked, rules::specs::Requests::request, rules::specs::Requests::widths, rules::specs::Requests::widths_or, crate::specs::Request::limits_of, rules::specs::Requests::operands, rules::specs::Requests::nth, crate::specs::Request::request_of, rules::proofs::Laws::Apart::Apart))]
fn ask(byte: u8, operands: Operands<'_>) -> Request
    ensures { request_of result ≡ asked operands.entry.wide byte operands.entry.bytes.now }
{
    match byte {
        0x01 => operands.declare_cpu(),
        0x02 => operands.add_node(),
        0x03 => operands.place_cpu(),
        0x04 => Request::Seal,
        0x05 => operands.set_shortest(),
        0x10 => operands.declare_thread(),
        0x11 => operands.set_tick(),
        0x12 => operands.schedule_thread(),
        0x13 => operands.schedule(),
        0x14 => operands.hardtick(),
        0x15 => operands.stattick(),
        0x16 => operands.resched(),
        0x17 => operands.maybe_preempt(),
        0x18 => operands.donate(),
        0x19 => operands.remove_donation(),
        _ => operands.set_critical(),
    }
}

// What the bytes from `at` on ask; `at` is C's, and may lie past the end. An operand that names a CPU or a node has two bytes if `wide`, else one.
#[tactic(auto, using(crate::proofs::Table::reads_unknown), unfolding(crate::specs::Request::reading_of, rules::specs::Requests::read))]
pub fn read(bytes: &[u8], at: usize, wide: bool) -> Reading
    ensures { reading_of result ≡ read (limits_of wide) (drop at bytes.now) }
{
    let Some([byte, rest @ ..]) = bytes.get(at..) else {
        return Err(Unread::Unknown);
    };
    let n = operand_bytes(*byte, wide).ok_or(Unread::Unknown)?;
    if rest.len() < n {
        return Err(Unread::CutShort);
    }
    let request = ask(*byte, Operands { bytes: rest, wide });
    Ok(Asked {
        request,
        used: 1 + n,
    })
}

#[tactic(auto, unfolding(rules::specs::Questions::shortest_in_range, rules::specs::Questions::question, rules::specs::Questions::least_shortest, rules::specs::Questions::most_shortest))]
fn shortest_in_range(ticks: u64) -> bool
    ensures { result ≡ (shortest_in_range ticks).answer }
{
    (LEAST_SHORTEST..=MOST_SHORTEST).contains(&ticks)
}

#[tactic(auto, unfolding(rules::specs::Questions::priority_in_range, rules::specs::Questions::question))]
fn priority_in_range(class: u64, value: u64) -> bool
    ensures { result ≡ (priority_in_range class value).answer }
{
    class <= 3 && value <= 127
}

impl Request {
    // Question 6 as far as it needs no state.
    #[tactic(auto, unfolding(crate::specs::Request::request_of, rules::specs::Questions::question, rules::specs::Questions::at_most))]
    pub fn in_range(self) -> bool
        ensures { result ≡ (in_range (request_of self)).answer }
    {
        match self {
            Request::AddNode { kind, .. } => kind <= MOST_TYPE,
            Request::SetShortest { ticks } => shortest_in_range(ticks),
            Request::DeclareThread { class, value, .. } => priority_in_range(class, value),
            Request::Schedule { flags, .. } => flags <= MOST_FLAGS,
            Request::Donate { class, value, .. } => priority_in_range(class, value),
            Request::SetCritical { mark, .. } => mark <= MOST_MARK,
            Request::DeclareCpu { .. }
            | Request::PlaceCpu { .. }
            | Request::Seal
            | Request::SetTick { .. }
            | Request::ScheduleThread { .. }
            | Request::Hardtick { .. }
            | Request::Stattick { .. }
            | Request::Resched { .. }
            | Request::MaybePreempt { .. }
            | Request::RemoveDonation { .. } => true,
        }
    }
}
