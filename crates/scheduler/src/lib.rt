// What a C or Rust program calls, by numbers, Booleans and structs as C lays them out; crate `scheduler_c` exports each as the static library.
#![tactic(auto)]

pub mod numbers;

ghost use Rattle.std.specs.Prelude.{◌≡◌};
ghost use Rattle.writer.specs.Writer.{answer, buffer_after};
ghost use Rattle.command.specs.Lent.{LeavesAll};
ghost use Rattle.stream.specs.Progress.{begin};
ghost use Rattle.stream.specs.Feed.{Feeds, feed_def};
ghost use Rattle.scheduler.specs.Numbers.{RendersRow, wrote_of, start_row, command_row};

use crate::numbers::{Begun, Row, Step, Written};
use command::obey::command;
use lines::render;
use processor::words::CpuWords;
use questions::state::State;
use request::fields::Fields;
use stream::feed::feed;
use stream::progress::Progress;
use stream::start::start;
use thread::Thread;
use topology::words::NodeWords;
use writer::write_command;

// The library's start. Where a slice is too short nothing is changed.
pub fn scheduler_start(
    threads: &mut [Thread],
    cpus: &mut [CpuWords],
    nodes: &mut [NodeWords],
) -> Begun
    ensures { LeavesAll start_row result threads cpus nodes }
{
    start(threads, cpus, nodes).into()
}

// The command that the bytes ask for.
pub fn scheduler_command(
    threads: &mut [Thread],
    cpus: &mut [CpuWords],
    nodes: &mut [NodeWords],
    bytes: &[u8],
    state: State,
) -> Step
    ensures { LeavesAll (command_row state bytes.now) result threads cpus nodes }
{
    command(threads, cpus, nodes, bytes, state).into()
}

// The line of one command.
pub fn scheduler_render(buffer: &mut [u8], number: u64, row: Row) -> Written
    ensures { RendersRow buffer number row result }
{
    render(buffer, number, row.into()).into()
}

// One command with its fields, in the form that `wide` says: its bytes in the buffer's first ones, or the refusal 1, 6 or 12.
#[tactic(auto, using(crate::proofs::Again::wrote))]
pub fn scheduler_write(byte: u64, fields: Fields, wide: bool, buffer: &mut [u8]) -> Written
    ensures { (result ≡ wrote_of (answer wide byte fields buffer.old)) × (buffer.new ≡ buffer_after wide byte fields buffer.old) }
{
    write_command(byte, fields, wide, buffer).into()
}

// A run that begins.
pub fn scheduler_begin(state: State) -> Progress
    ensures { result ≡ begin state }
{
    Progress::begin(state)
}

// The first n bytes of input, `last` if no block follows: header, lines and end line in output.
pub fn scheduler_feed(
    threads: &mut [Thread],
    cpus: &mut [CpuWords],
    nodes: &mut [NodeWords],
    input: &[u8],
    output: &mut [u8],
    n: usize,
    last: bool,
    fed: Progress,
) -> Progress
    ensures { Feeds (feed_def input.now n last) fed result threads cpus nodes output }
{
    feed(threads, cpus, nodes, input, output, n, last, fed)
}
