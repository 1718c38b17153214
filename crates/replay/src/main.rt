// Commands from standard input, document 01's output to standard output.
#![tactic(auto)]

use blocks::keep;
use files::Filled;
use lines::has_room;
use processor::words::CpuWords;
use questions::refusal::MAX_THREADS;
use std::io::Read;
use std::{fmt, io};
use stream::feed::feed;
use stream::progress::Progress;
use stream::start::{MAX_CPUS, MAX_NODES, start};
use thread::{Thread, blank};
use topology::words::NodeWords;

// A file failed: the output has no end line, and standard error says why.
#[derive(Clone, Copy)]
pub enum Failure {
    Input,
    Output,
}

impl fmt::Display for Failure {
    fn fmt<W: fmt::Write>(&self, f: &mut fmt::Formatter<W>) -> fmt::Result {
        match *self {
            Failure::Input => write!(f, "standard input could not be read"),
            Failure::Output => write!(f, "standard output could not be written"),
        }
    }
}

// One read of standard input behind the first `left` bytes. Where the `done` bytes of output left no room for a line, the bytes that are there come first, and
// nothing is read.
fn fill(
    stdin: &mut impl Read,
    input: &mut [u8],
    output: &[u8],
    left: usize,
    done: usize,
) -> io::Result<Filled> {
    if !has_room(output, done) {
        return Ok(Filled {
            bytes: left,
            last: false,
        });
    }
    files::fill(stdin, input, left)
}

// Each turn but the last takes a command, and a run has fewer than 2^32. The slices stand as `feed` takes them.
fn serve(
    stdin: &mut impl Read,
    stdout: &impl Print,
    threads: &mut [Thread],
    cpus: &mut [CpuWords],
    nodes: &mut [NodeWords],
    begun: Progress,
) -> Result<(), Failure> {
    let mut input = [0u8; 4096];
    let mut output = [0u8; 32768];
    let mut fed = begun;
    let mut left = 0;
    for _ in 0..u64::MAX {
        let got = fill(stdin, &mut input, &output, left, fed.done).map_err(|_| Failure::Input)?;
        let n = got.bytes;
        fed = feed(threads, cpus, nodes, &input, &mut output, n, got.last, fed);
        let done = fed.done.min(output.len());
        stdout
            .write_all(&output[..done])
            .map_err(|_| Failure::Output)?;
        if fed.is_ended() {
            return Ok(());
        }
        left = keep(&mut input, fed.at, n);
    }
    Ok(())
}

// The memory that is lent is large enough for every start.
fn main(rt: HostRuntime) {
    let mut threads = [blank(); MAX_THREADS as usize];
    let mut cpus = [[0u64; processor::words::WORDS]; MAX_CPUS as usize];
    let mut nodes = [[0u64; topology::words::WORDS]; MAX_NODES as usize];
    let Some(state) = start(&mut threads, &mut cpus, &mut nodes) else {
        return;
    };
    let served = serve(
        &mut rt.stdin(),
        &rt.stdout(),
        &mut threads,
        &mut cpus,
        &mut nodes,
        Progress::begin(state),
    );
    if let Err(failure) = served {
        let stderr = rt.stderr();
        let _ = println!(stderr; "replay: {failure}");
    }
}
