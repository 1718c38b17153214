// The answer to a command, and the lines that the program prints, written into a lent buffer.
#![tactic(auto)]

ghost use Rattle.std.specs.Prelude.{◌≡◌, ℕ, List, [], ◌∷◌, ◌+◌, ◌%◌};
ghost use Rattle.std.specs.Fn.{FnOnceReturnsAtMut};
ghost use Rattle.rules.specs.Lines.{digits, decimal, number_or_dash, running_or_dash, line, header, end_line};
ghost use Rattle.lines.specs.Lines.{question_number, refusal_number, answer_of, room};
ghost use Rattle.lines.specs.Text.{Writes, Puts, Renders, text, write, two_digits, four_digits, counts_part, cpu_part, numbers_part};

use rules::Running;

// Why a call refuses, with its number: a question that was answered no, or a lent buffer that is too small.
#[derive(Clone, Copy)]
pub enum Refusal {
    UnknownCommand = 1,
    CutShort = 2,
    WrongSideOfSeal = 3,
    Cpu = 4,
    Thread = 5,
    OutOfRange = 6,
    NotBlocked = 7,
    Tick = 8,
    NotPlaced = 9,
    TooMany = 10,
    SmallBuffer = 11,
    ShortBuffer = 12,
}

#[derive(Clone, Copy)]
pub struct Answer {
    pub refusal: Option<Refusal>,
    pub cpu: Option<u64>,
    pub running: Option<Running>,
    pub load: Option<u64>,
    pub wakeups: Option<u64>,
}

// The fewest bytes that a buffer for a line has.
pub const LINE: usize = 48;

impl From<Refusal> for u64 {
    ghost from_gives = { λ refusal n. n ≡ question_number refusal };

    #[tactic(auto, unfolding(crate::specs::Lines::question_number))]
    fn from(refusal: Refusal) -> u64 {
        refusal as u64
    }
}

// 0 for a command that is obeyed. A function, since no `From` may stand between an `Option` and a `u64`.
#[tactic(auto, unfolding(crate::specs::Lines::refusal_number))]
pub fn refusal_number(refusal: Option<Refusal>) -> u64
    ensures { result ≡ refusal_number refusal }
{
    refusal.map_or(0, u64::from)
}

// A lent buffer that is written to, and where its next byte goes.
#[derive(Drop)]
pub struct Text<'a> {
    pub buffer: &'a mut [u8],
    pub at: usize,
}

// The last digit as a byte; `char::from_digit` would answer an `Option` of a `char`.
fn digit(n: u64) -> u8
    ensures { result ≡ 48 + n % 10 }
{
    b'0' + (n % 10) as u8
}

// One byte of a text; answers where the next one goes. By index, since the proof loses what goes through `get_mut`.
#[tactic(auto, using(crate::proofs::Writing::write_past, crate::proofs::Writing::write_there))]
fn put_byte(buffer: &mut [u8], at: usize, byte: u8) -> usize
    ensures { text buffer.new result ≡ write (text buffer.old at) (byte ∷ []) }
{
    if at < buffer.len() {
        buffer[at] = byte;
        at + 1
    } else {
        at
    }
}

// The last two digits of a number. Digits go to a buffer and a place: as methods of `Text`, `replay` took 7 % more instructions. The library's `itoa` would
// fill a buffer of its own, to be copied.
#[tactic(auto, using(crate::proofs::Writing::write_byte), unfolding(crate::specs::Text::two_digits))]
fn put_two(buffer: &mut [u8], at: usize, n: u64) -> usize
    ensures { text buffer.new result ≡ write (text buffer.old at) (two_digits n) }
{
    let next = put_byte(buffer, at, digit(n / 10));
    put_byte(buffer, next, digit(n))
}

// The last four digits of a number.
#[tactic(auto, using(crate::proofs::Writing::write_append), unfolding(crate::specs::Text::four_digits))]
fn put_four(buffer: &mut [u8], at: usize, n: u64) -> usize
    ensures { text buffer.new result ≡ write (text buffer.old at) (four_digits n) }
{
    let next = put_two(buffer, at, n / 100);
    put_two(buffer, next, n)
}

// A number below 10,000; of a larger one the last four digits.
#[tactic(auto, using(crate::proofs::Digits::short_four, crate::proofs::Digits::short_one, crate::proofs::Digits::short_three, crate::proofs::Digits::short_two, crate::proofs::Writing::write_append, crate::proofs::Writing::write_byte))]
fn put_short(buffer: &mut [u8], at: usize, n: u64) -> usize
    ensures { text buffer.new result ≡ write (text buffer.old at) (digits 4 n) }
{
    match n {
        0..=9 => put_byte(buffer, at, digit(n)),
        10..=99 => put_two(buffer, at, n),
        100..=999 => {
            let tens = put_byte(buffer, at, digit(n / 100));
            put_two(buffer, tens, n)
        }
        _ => put_four(buffer, at, n),
    }
}

// A number of any length, four digits at a time, the first ones first.
#[tactic(auto, using(crate::proofs::Digits::decimal_short))]
fn put_long(buffer: &mut [u8], at: usize, n: u64) -> usize
    ensures { text buffer.new result ≡ write (text buffer.old at) (decimal n) }
{
    if n < 10000 {
        return put_short(buffer, at, n);
    }
    let next = put_long(buffer, at, n / 10000);
    put_four(buffer, next, n % 10000)
}

impl Text<'_> {
    // One byte; nothing past the end.
    pub fn put(&mut self, byte: u8)
        ensures { Writes self (byte ∷ []) }
    {
        self.at = put_byte(self.buffer, self.at, byte);
    }

    // These bytes.
    #[tactic(auto, using(crate::proofs::Writing::write_done, crate::proofs::Writing::write_next))]
    pub fn put_bytes(&mut self, bytes: &[u8])
        ensures { Writes self bytes.now }
    {
        for byte in bytes {
            self.put(*byte);
        }
    }

    // A number in decimal digits. One digit, the common case, is written without a further call.
    #[tactic(auto, using(crate::proofs::Digits::decimal_small))]
    pub fn put_number(&mut self, n: u64)
        ensures { Writes self (decimal n) }
    {
        if n < 10 {
            self.put(digit(n));
        } else {
            self.at = put_long(self.buffer, self.at, n);
        }
    }

    // Tried `write!` from here on: it promises its bytes only where it answers `Ok`, and a line cannot fail.
    #[tactic(auto, unfolding(rules::specs::Lines::number_or_dash, rules::specs::Lines::dash))]
    fn put_shown(&mut self, shown: Option<u64>)
        ensures { Writes self (number_or_dash shown) }
    {
        match shown {
            Some(n) => self.put_number(n),
            None => self.put(b'-'),
        }
    }

    #[tactic(auto, unfolding(rules::specs::Lines::running_or_dash, rules::specs::Lines::idle_word, rules::specs::Lines::dash))]
    fn put_running(&mut self, running: Option<Running>)
        ensures { Writes self (running_or_dash running) }
    {
        match running {
            Some(Running::Thread(n)) => self.put_number(n),
            Some(Running::Idle) => self.put_bytes(b"idle"),
            None => self.put(b'-'),
        }
    }

    // Queue load and wake-ups, up to the line's end.
    #[tactic(auto, using(crate::proofs::Writing::write_append, crate::proofs::Writing::write_byte), unfolding(crate::specs::Text::counts_part, rules::specs::Lines::space, rules::specs::Lines::line_feed))]
    fn put_counts(&mut self, load: Option<u64>, wakeups: Option<u64>)
        ensures { Writes self (counts_part load wakeups) }
    {
        self.put(b' ');
        self.put_shown(load);
        self.put(b' ');
        self.put_shown(wakeups);
        self.put(b'\n');
    }

    // The CPU and what it runs.
    #[tactic(auto, using(crate::proofs::Writing::write_append, crate::proofs::Writing::write_byte), unfolding(crate::specs::Text::cpu_part, rules::specs::Lines::space))]
    fn put_cpu(&mut self, cpu: Option<u64>, running: Option<Running>)
        ensures { Writes self (cpu_part cpu running) }
    {
        self.put(b' ');
        self.put_shown(cpu);
        self.put(b' ');
        self.put_running(running);
    }

    // Two numbers, with a space between.
    #[tactic(auto, using(crate::proofs::Writing::write_append, crate::proofs::Writing::write_byte), unfolding(crate::specs::Text::numbers_part, rules::specs::Lines::space))]
    fn put_numbers(&mut self, first: u64, second: u64)
        ensures { Writes self (numbers_part first second) }
    {
        self.put_number(first);
        self.put(b' ');
        self.put_number(second);
    }

    // The line of one command.
    #[tactic(auto, using(crate::proofs::Writing::write_append), unfolding(crate::specs::Lines::answer_of, rules::specs::Lines::line, crate::specs::Text::numbers_part, crate::specs::Text::cpu_part, crate::specs::Text::counts_part))]
    fn put_line(&mut self, number: u64, answer: Answer)
        ensures { Writes self (line number (answer_of answer)) }
    {
        self.put_numbers(number, refusal_number(answer.refusal));
        self.put_cpu(answer.cpu, answer.running);
        self.put_counts(answer.load, answer.wakeups);
    }

    // The line that ends a run.
    #[tactic(auto, using(crate::proofs::Writing::write_append, crate::proofs::Writing::write_byte), unfolding(rules::specs::Lines::end_line, crate::specs::Text::numbers_part, rules::specs::Lines::end_word, rules::specs::Lines::space, rules::specs::Lines::line_feed))]
    fn put_end(&mut self, commands: u64, refused: u64)
        ensures { Writes self (end_line commands refused) }
    {
        self.put_bytes(b"end ");
        self.put_numbers(commands, refused);
        self.put(b'\n');
    }
}

// "has the lent buffer at least 48 bytes?", counted from `at` on.
#[tactic(auto, using(crate::proofs::Writing::room_left))]
pub fn has_room(buffer: &[u8], at: usize) -> bool
    ensures { result ≡ room buffer.now at }
{
    buffer.len().saturating_sub(at) >= LINE
}

// The line that `put` writes from `at` on, if the buffer has room for one.
fn render_with<F: FnOnce(&mut Text<'_>)>(
    buffer: &mut [u8],
    at: usize,
    put: F,
) -> Result<usize, Refusal>
    requires { F.IsAlwaysCallable put }
    ensures { (l : List ℕ) → Puts (FnOnceReturnsAtMut F.FnOnce put) l → Renders buffer at l result }
{
    if !has_room(buffer, at) {
        return Err(Refusal::SmallBuffer);
    }
    let mut text = Text { buffer, at };
    put(&mut text);
    Ok(text.at.saturating_sub(at))
}

// The line of one command, from `at` on: C keeps the place as a number, beside its buffer.
pub fn render_at(
    buffer: &mut [u8],
    at: usize,
    number: u64,
    answer: Answer,
) -> Result<usize, Refusal>
    ensures { Renders buffer at (line number (answer_of answer)) result }
{
    render_with(
        buffer,
        at,
        |text: &mut Text<'_>| text.put_line(number, answer),
    )
}

// The first line, from `at` on; buffer and place stand apart, as for `render_at`.
#[tactic(auto, unfolding(rules::specs::Lines::header))]
pub fn render_header(buffer: &mut [u8], at: usize) -> Result<usize, Refusal>
    ensures { Renders buffer at header result }
{
    render_with(
        buffer,
        at,
        |text: &mut Text<'_>| text.put_bytes(b"sched 1\n"),
    )
}

// The last line, from `at` on; buffer and place stand apart, as for `render_at`.
pub fn render_end(
    buffer: &mut [u8],
    at: usize,
    commands: u64,
    refused: u64,
) -> Result<usize, Refusal>
    ensures { Renders buffer at (end_line commands refused) result }
{
    render_with(
        buffer,
        at,
        |text: &mut Text<'_>| text.put_end(commands, refused),
    )
}

// The line of one command.
pub fn render(buffer: &mut [u8], number: u64, answer: Answer) -> Result<usize, Refusal>
    ensures { Renders buffer 0 (line number (answer_of answer)) result }
{
    render_at(buffer, 0, number, answer)
}
