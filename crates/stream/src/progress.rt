// How far a run is, and the lines that it writes. n is how many bytes the block has, as C gives it; it may be past the end of the input.
ghost use Rattle.std.specs.Prelude.{◌≡◌, ◌==◌};
ghost use Rattle.rules.specs.Lines.{line};
ghost use Rattle.lines.specs.Lines.{refusal_number, answer_of, buffer_with};
ghost use Rattle.stream.specs.Progress.{begin, can_answer, must_wait, ends_by, next_at, one_if, counted, answered_fed, with_output, at_start, opened_fed, opened_out, due, closed_fed, closed_out, ENDED};

use lines::{Refusal, has_room, render_at, render_end, render_header};
use outcome::answer::Answered;
use questions::state::State;
use request::{Reading, Unread};

// The header is due; commands are answered; the end line is due; it is written.
pub const HEADER: u64 = 0;

pub const COMMANDS: u64 = 1;

pub const END: u64 = 2;

pub const ENDED: u64 = 3;

// Command number 4,294,967,294 ends the run.
pub const LAST_NUMBER: u64 = u32::MAX as u64 - 1;

// The bytes of the block that were taken, the bytes of output, the number of the next command, the refused ones, the phase, and the state. Numbers, since it
// passes over C.
#[repr(C)]
#[derive(Clone, Copy)]
pub struct Progress {
    pub at: usize,
    pub done: usize,
    pub number: u64,
    pub refused: u64,
    pub phase: u64,
    pub state: State,
}

// A command cut short waits for the next block, unless this is the last.
#[tactic(auto, unfolding(crate::specs::Progress::must_wait))]
pub fn must_wait(last: bool, reading: Reading) -> bool
    ensures { result ≡ must_wait last reading }
{
    !last && matches!(reading, Err(Unread::CutShort))
}

// "Refusals 1 and 2 end the run, as does command number 4,294,967,294."
#[tactic(auto, unfolding(crate::specs::Progress::ends_by, rules::specs::Lines::last_number, lines::specs::Lines::refusal_number, lines::specs::Lines::question_number))]
fn ends(number: u64, refusal: Option<Refusal>) -> bool
    ensures { result ≡ ends_by number (refusal_number refusal) }
{
    matches!(refusal, Some(Refusal::UnknownCommand | Refusal::CutShort)) || number == LAST_NUMBER
}

// Where the next command begins: at the end where this one ends the run.
#[tactic(auto, unfolding(crate::specs::Progress::next_at, crate::specs::Progress::at_least_one))]
fn next_at(n: usize, at: usize, used: usize, ended: bool) -> usize
    ensures { result ≡ next_at n at used ended }
{
    if ended {
        return n;
    }
    at.saturating_add(used.max(1)).min(n)
}

#[tactic(auto, unfolding(crate::specs::Progress::one_if, lines::specs::Lines::refusal_number, lines::specs::Lines::question_number))]
fn one_if(refusal: Option<Refusal>) -> u64
    ensures { result ≡ one_if (refusal_number refusal) }
{
    u64::from(refusal.is_some())
}

impl Progress {
    // A run that begins.
    #[tactic(auto, unfolding(crate::specs::Progress::begin))]
    pub fn begin(state: State) -> Progress
        ensures { result ≡ begin state }
    {
        Progress {
            at: 0,
            done: 0,
            number: 0,
            refused: 0,
            phase: HEADER,
            state,
        }
    }

    // Are there bytes of a next command, and room for its line?
    #[tactic(auto, unfolding(crate::specs::Progress::can_answer))]
    pub fn can_answer(self, output: &[u8], n: usize) -> bool
        ensures { result ≡ can_answer output.now n self }
    {
        self.phase == COMMANDS && self.at < n && has_room(output, self.done)
    }

    // What a command with this answer leaves, once so many bytes of output are written.
    #[tactic(auto, unfolding(crate::specs::Progress::counted, crate::specs::Progress::phase_after))]
    fn counted(self, n: usize, a: Answered, done: usize) -> Progress
        ensures { result ≡ counted n a self done }
    {
        let refusal = a.answer.refusal;
        let ended = ends(self.number, refusal);
        // By its fields: copied as a whole, the bytes between them are carried from command to command, and `replay` takes up to a fifth more time.
        let State {
            cpus,
            nodes,
            shortest,
            wide,
            tick,
            sealed,
            accepted,
            node_count,
        } = a.state;
        Progress {
            at: next_at(n, self.at, a.used, ended),
            done,
            number: self.number.wrapping_add(1),
            refused: self.refused.wrapping_add(one_if(refusal)),
            phase: if ended { END } else { COMMANDS },
            state: State {
                cpus,
                nodes,
                shortest,
                wide,
                tick,
                sealed,
                accepted,
                node_count,
            },
        }
    }

    // The line of a command is written, and the run goes on behind it.
    #[tactic(auto, unfolding(crate::specs::Progress::answered_fed, crate::specs::Progress::written))]
    pub fn answered(self, output: &mut [u8], n: usize, a: Answered) -> Progress
        ensures { (result ≡ answered_fed output.old n a self) × (output.new ≡ buffer_with output.old self.done (line self.number (answer_of a.answer))) }
    {
        let rendered = render_at(output, self.done, self.number, a.answer);
        let done = self.done.wrapping_add(rendered.unwrap_or(0));
        self.counted(n, a, done)
    }

    #[tactic(auto, unfolding(crate::specs::Progress::with_output))]
    fn with_output(self, done: usize, phase: u64) -> Progress
        ensures { result ≡ with_output self done phase }
    {
        Progress {
            done,
            phase,
            ..self
        }
    }

    // A block begins: nothing of it is taken, and the output is empty.
    #[tactic(auto, unfolding(crate::specs::Progress::at_start))]
    fn at_start(self) -> Progress
        ensures { result ≡ at_start self }
    {
        Progress {
            at: 0,
            done: 0,
            ..self
        }
    }

    // A block begins; the header is written if it is due and there is room.
    #[tactic(auto, unfolding(crate::specs::Progress::written, crate::specs::Progress::opened_fed, crate::specs::Progress::opened_out))]
    pub fn opened(self, output: &mut [u8]) -> Progress
        ensures { (result ≡ opened_fed output.old self) × (output.new ≡ opened_out output.old self) }
    {
        let f = self.at_start();
        if self.phase == HEADER && has_room(output, 0) {
            let rendered = render_header(output, 0);
            return f.with_output(rendered.unwrap_or(0), COMMANDS);
        }
        f
    }

    // Is the end line due? Where the run has ended, or the last block has no more commands.
    #[tactic(auto, unfolding(crate::specs::Progress::due))]
    fn due(self, n: usize, last: bool) -> bool
        ensures { result ≡ due n last self }
    {
        self.phase == END || (self.phase == COMMANDS && last && n <= self.at)
    }

    // The end line is written if it is due and there is room.
    #[tactic(auto, unfolding(crate::specs::Progress::written, crate::specs::Progress::closed_fed, crate::specs::Progress::closed_out))]
    pub fn closed(self, output: &mut [u8], n: usize, last: bool) -> Progress
        ensures { (result ≡ closed_fed output.old n last self) × (output.new ≡ closed_out output.old n last self) }
    {
        if self.due(n, last) && has_room(output, self.done) {
            let rendered = render_end(output, self.done, self.number, self.refused);
            let done = self.done.wrapping_add(rendered.unwrap_or(0));
            return self.with_output(done, ENDED);
        }
        self
    }

    // Is the end line written?
    pub fn is_ended(self) -> bool
        ensures { result ≡ (self.phase == ENDED) }
    {
        self.phase == ENDED
    }
}
