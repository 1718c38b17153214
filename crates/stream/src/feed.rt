// A block of a stream, through as many commands as fit. The three slices stand apart as `command_read` takes them, n and `last` as C gives them; n may be
// past the end of the input.
ghost use Rattle.stream.specs.Feed.{Feeds, run_def, feed_def};

use crate::progress::{Progress, must_wait};
use command::obey::command_read;
use outcome::call::asked;
use processor::words::CpuWords;
use thread::Thread;
use topology::words::NodeWords;

// The commands of the first n bytes, each read once and answered in output, until one of the two is used up.
fn run(
    threads: &mut [Thread],
    cpus: &mut [CpuWords],
    nodes: &mut [NodeWords],
    input: &[u8],
    output: &mut [u8],
    n: usize,
    last: bool,
    fed: Progress,
) -> Progress
    ensures { Feeds (run_def n input.now n last) fed result threads cpus nodes output }
{
    let mut f = fed;
    // It counts nothing: a turn ends by what was read and answered.
    while f.can_answer(output, n) {
        let reading = asked(input, n, f.at, f.state.wide);
        if must_wait(last, reading) {
            return f;
        }
        let a = command_read(threads, cpus, nodes, f.state, reading);
        f = f.answered(output, n, a);
    }
    f
}

// The first n bytes of input, `last` if no block follows: header, lines and end line in output. The bytes of a command cut short are not taken: they go
// to the front of the next block.
#[tactic(auto, unfolding(crate::specs::Feed::feed_def))]
pub fn feed(
    threads: &mut [Thread],
    cpus: &mut [CpuWords],
    nodes: &mut [NodeWords],
    input: &[u8],
    output: &mut [u8],
    n: usize,
    last: bool,
    fed: Progress,
) -> Progress
    ensures { Feeds (feed_def input.now n last) fed result threads cpus nodes output }
{
    let f = fed.opened(output);
    let g = run(threads, cpus, nodes, input, output, n, last, f);
    g.closed(output, n, last)
}
