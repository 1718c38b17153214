// The stored streams, each fed to the library and compared with what the Rust printed for it, byte by byte. Standard input holds them one after the other:
// the length of the stream and of the lines, four bytes each, then the stream and the lines.
#![tactic(auto)]

use files::read_full;
use files::tally::Tally;
use processor::words::CpuWords;
use questions::refusal::MAX_THREADS;
use std::io::Read;
use stream::feed::feed;
use stream::progress::Progress;
use stream::start::{MAX_CPUS, MAX_NODES, start};
use thread::{Thread, blank};
use topology::words::NodeWords;

// The next two lengths, of a stream and of its lines, read into the front of the input; none at the end.
fn next_lengths(stdin: &mut impl Read, input: &mut [u8]) -> Option<(usize, usize)> {
    let head = input.get_mut(..8)?;
    if read_full(stdin, head) < 8 {
        return None;
    }
    let [a, b, c, d, e, f, g, h] = *head else {
        return None;
    };
    let of_stream = u32::from_le_bytes([a, b, c, d]) as usize;
    let of_lines = u32::from_le_bytes([e, f, g, h]) as usize;
    Some((of_stream, of_lines))
}

// Are the next n bytes there? Then they stand at the front of the buffer.
fn take(stdin: &mut impl Read, buffer: &mut [u8], n: usize) -> bool {
    let Some(part) = buffer.get_mut(..n) else {
        return false;
    };
    read_full(stdin, part) == n
}

// Do the first `done` bytes of the output begin with the header, and are they the first n of the lines?
fn agree(output: &[u8], done: usize, lines: &[u8], n: usize) -> bool {
    let (Some(answered), Some(expected)) = (output.get(..done), lines.get(..n)) else {
        return false;
    };
    answered.starts_with(b"sched 1\n") && answered == expected
}

// At most a thousand streams. The slices stand as `feed` takes them. Of a stream that is longer than the input what stands there is fed, and more could follow.
fn replayed(
    stdin: &mut impl Read,
    threads: &mut [Thread],
    cpus: &mut [CpuWords],
    nodes: &mut [NodeWords],
) -> Tally {
    let mut input = [0u8; 8192];
    let mut output = [0u8; 65536];
    let mut lines = [0u8; 65536];
    let mut tally = Tally::default();
    for _ in 0..1000 {
        let Some((n, of_lines)) = next_lengths(stdin, &mut input) else {
            return tally;
        };
        let whole = take(stdin, &mut input, n);
        let read = take(stdin, &mut lines, of_lines);
        let Some(state) = start(threads, cpus, nodes) else {
            return tally;
        };
        let begun = Progress::begin(state);
        let fed = feed(threads, cpus, nodes, &input, &mut output, n, whole, begun);
        tally.add(read && agree(&output, fed.done, &lines, of_lines));
    }
    tally
}

fn main(rt: HostRuntime) {
    let mut threads = [blank(); MAX_THREADS as usize];
    let mut cpus = [[0u64; processor::words::WORDS]; MAX_CPUS as usize];
    let mut nodes = [[0u64; topology::words::WORDS]; MAX_NODES as usize];
    let tally = replayed(&mut rt.stdin(), &mut threads, &mut cpus, &mut nodes);
    let stdout = rt.stdout();
    let _ = println!(stdout; "{} streams, {} differ", tally.cases, tally.differ);
}
