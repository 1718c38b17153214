// The static library for C: each function of `scheduler` with its clauses, since a crate is a library or a static library. A slice passes as a pointer and a
// length, a struct as C lays it out.
#![tactic(auto)]

ghost use Rattle.std.specs.Prelude.{◌≡◌};
ghost use Rattle.writer.specs.Writer.{answer, buffer_after};
ghost use Rattle.command.specs.Lent.{LeavesAll};
ghost use Rattle.stream.specs.Progress.{begin};
ghost use Rattle.stream.specs.Feed.{Feeds, feed_def};
ghost use Rattle.scheduler.specs.Numbers.{RendersRow, wrote_of, start_row, command_row};

use processor::words::CpuWords;
use questions::state::State;
use request::fields::Fields;
use scheduler::numbers::{Begun, Row, Step, Written};
use stream::progress::Progress;
use thread::Thread;
use topology::words::NodeWords;

// The library's start. Where a slice is too short nothing is changed.
#[unsafe(no_mangle)]
pub extern "C" fn scheduler_start(
    threads: &mut [Thread],
    cpus: &mut [CpuWords],
    nodes: &mut [NodeWords],
) -> Begun
    ensures { LeavesAll start_row result threads cpus nodes }
{
    scheduler::scheduler_start(threads, cpus, nodes)
}

// The command that the bytes ask for.
#[unsafe(no_mangle)]
pub extern "C" fn scheduler_command(
    threads: &mut [Thread],
    cpus: &mut [CpuWords],
    nodes: &mut [NodeWords],
    bytes: &[u8],
    state: State,
) -> Step
    ensures { LeavesAll (command_row state bytes.now) result threads cpus nodes }
{
    scheduler::scheduler_command(threads, cpus, nodes, bytes, state)
}

// The line of one command.
#[unsafe(no_mangle)]
pub extern "C" fn scheduler_render(buffer: &mut [u8], number: u64, row: Row) -> Written
    ensures { RendersRow buffer number row result }
{
    scheduler::scheduler_render(buffer, number, row)
}

// One command with its fields, in the form that `wide` says: its bytes in the buffer's first ones, or the refusal 1, 6 or 12.
#[unsafe(no_mangle)]
pub extern "C" fn scheduler_write(
    byte: u64,
    fields: Fields,
    wide: bool,
    buffer: &mut [u8],
) -> Written
    ensures { (result ≡ wrote_of (answer wide byte fields buffer.old)) × (buffer.new ≡ buffer_after wide byte fields buffer.old) }
{
    scheduler::scheduler_write(byte, fields, wide, buffer)
}

// A run that begins.
#[unsafe(no_mangle)]
pub extern "C" fn scheduler_begin(state: State) -> Progress
    ensures { result ≡ begin state }
{
    scheduler::scheduler_begin(state)
}

// The first n bytes of input, `last` if no block follows: header, lines and end line in output.
#[unsafe(no_mangle)]
pub extern "C" fn scheduler_feed(
    threads: &mut [Thread],
    cpus: &mut [CpuWords],
    nodes: &mut [NodeWords],
    input: &[u8],
    output: &mut [u8],
    n: usize,
    last: bool,
    fed: Progress,
) -> Progress
    ensures { Feeds (feed_def input.now n last) fed result threads cpus nodes output }
{
    scheduler::scheduler_feed(threads, cpus, nodes, input, output, n, last, fed)
}
