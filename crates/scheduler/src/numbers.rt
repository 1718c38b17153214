// Answers as numbers and Booleans, which C takes: an enum does not pass over C. `answer_again` of proofs/Again: none is lost.
ghost use Rattle.std.specs.Prelude.{◌≡◌};
ghost use Rattle.outcome.specs.Call.{refusal_back};
ghost use Rattle.scheduler.specs.Numbers.{column_of, shown_in, runs_of, running_in, row_of, answer_in, step_of, begun_of, written_of};

use lines::{Answer, Refusal, refusal_number};
use outcome::answer::Answered;
use questions::state::State;
use rules::Running;

// A number of a line, or `-` where it is not shown.
#[repr(C)]
#[derive(Clone, Copy)]
pub struct Column {
    pub shown: bool,
    pub number: u64,
}

// The thread that a CPU runs, its idle thread, or `-` where neither is shown.
#[repr(C)]
#[derive(Clone, Copy)]
pub struct Runs {
    pub shown: bool,
    pub idle: bool,
    pub thread: u64,
}

// What a line shows behind its number.
#[repr(C)]
#[derive(Clone, Copy)]
pub struct Row {
    pub refusal: u64,
    pub cpu: Column,
    pub running: Runs,
    pub load: Column,
    pub wakeups: Column,
}

// What a command answers: its row, the bytes that it took, and the state for the next call.
#[repr(C)]
#[derive(Clone, Copy)]
pub struct Step {
    pub row: Row,
    pub used: usize,
    pub state: State,
}

// What the start answers: the state, where there is room.
#[repr(C)]
#[derive(Clone, Copy, Default)]
pub struct Begun {
    pub ready: bool,
    pub state: State,
}

// The bytes of a line that were written, or refusal 11.
#[repr(C)]
#[derive(Clone, Copy)]
pub struct Written {
    pub refusal: u64,
    pub bytes: usize,
}

// Column and Runs have two conversions each, since their fields differ.
impl From<Option<u64>> for Column {
    ghost from_gives = { λ shown column. column ≡ column_of shown };

    #[tactic(auto, unfolding(crate::specs::Numbers::column_of))]
    fn from(shown: Option<u64>) -> Column {
        match shown {
            Some(number) => Column {
                shown: true,
                number,
            },
            None => Column {
                shown: false,
                number: 0,
            },
        }
    }
}

impl From<Column> for Option<u64> {
    ghost from_gives = { λ column shown. shown ≡ shown_in column };

    #[tactic(auto, unfolding(crate::specs::Numbers::shown_in))]
    fn from(column: Column) -> Option<u64> {
        column.shown.then_some(column.number)
    }
}

impl From<Option<Running>> for Runs {
    ghost from_gives = { λ running runs. runs ≡ runs_of running };

    #[tactic(auto, unfolding(crate::specs::Numbers::runs_of))]
    fn from(running: Option<Running>) -> Runs {
        match running {
            Some(Running::Thread(thread)) => Runs {
                shown: true,
                idle: false,
                thread,
            },
            Some(Running::Idle) => Runs {
                shown: true,
                idle: true,
                thread: 0,
            },
            None => Runs {
                shown: false,
                idle: false,
                thread: 0,
            },
        }
    }
}

impl From<Runs> for Option<Running> {
    ghost from_gives = { λ runs running. running ≡ running_in runs };

    #[tactic(auto, unfolding(crate::specs::Numbers::running_in))]
    fn from(runs: Runs) -> Option<Running> {
        if !runs.shown {
            return None;
        }
        if runs.idle {
            Some(Running::Idle)
        } else {
            Some(Running::Thread(runs.thread))
        }
    }
}

// The refusal of a number; any number past 10 but 12 counts as 11. No `From`: both types are of other crates; no `TryFrom` in `lines` either,
// since every number has an answer.
#[tactic(auto, unfolding(outcome::specs::Call::refusal_back))]
fn refusal_in(number: u64) -> Option<Refusal>
    ensures { result ≡ refusal_back number }
{
    match number {
        0 => None,
        1 => Some(Refusal::UnknownCommand),
        2 => Some(Refusal::CutShort),
        3 => Some(Refusal::WrongSideOfSeal),
        4 => Some(Refusal::Cpu),
        5 => Some(Refusal::Thread),
        6 => Some(Refusal::OutOfRange),
        7 => Some(Refusal::NotBlocked),
        8 => Some(Refusal::Tick),
        9 => Some(Refusal::NotPlaced),
        10 => Some(Refusal::TooMany),
        12 => Some(Refusal::ShortBuffer),
        _ => Some(Refusal::SmallBuffer),
    }
}

impl From<Answer> for Row {
    ghost from_gives = { λ answer row. row ≡ row_of answer };

    #[tactic(auto, unfolding(crate::specs::Numbers::row_of))]
    fn from(answer: Answer) -> Row {
        Row {
            refusal: refusal_number(answer.refusal),
            cpu: Column::from(answer.cpu),
            running: Runs::from(answer.running),
            load: Column::from(answer.load),
            wakeups: Column::from(answer.wakeups),
        }
    }
}

impl From<Row> for Answer {
    ghost from_gives = { λ row answer. answer ≡ answer_in row };

    #[tactic(auto, unfolding(crate::specs::Numbers::answer_in))]
    fn from(row: Row) -> Answer {
        Answer {
            refusal: refusal_in(row.refusal),
            cpu: row.cpu.into(),
            running: row.running.into(),
            load: row.load.into(),
            wakeups: row.wakeups.into(),
        }
    }
}

impl From<Answered> for Step {
    ghost from_gives = { λ answered step. step ≡ step_of answered };

    #[tactic(auto, unfolding(crate::specs::Numbers::step_of))]
    fn from(answered: Answered) -> Step {
        Step {
            row: Row::from(answered.answer),
            used: answered.used,
            state: answered.state,
        }
    }
}

impl From<Option<State>> for Begun {
    ghost from_gives = { λ started begun. begun ≡ begun_of started };

    #[tactic(auto, unfolding(crate::specs::Numbers::begun_of, crate::specs::Numbers::no_state))]
    fn from(started: Option<State>) -> Begun {
        match started {
            Some(state) => Begun { ready: true, state },
            None => Begun::default(),
        }
    }
}

impl From<Result<usize, Refusal>> for Written {
    ghost from_gives = { λ answer written. written ≡ written_of answer };

    #[tactic(auto, unfolding(crate::specs::Numbers::written_of, crate::specs::Numbers::refused_with, lines::specs::Lines::refusal_number))]
    fn from(answer: Result<usize, Refusal>) -> Written {
        Written {
            refusal: refusal_number(answer.err()),
            bytes: answer.unwrap_or(0),
        }
    }
}
