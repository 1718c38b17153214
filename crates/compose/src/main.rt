// Text from standard input, command bytes to standard output: one command to a line.
#![tactic(auto)]

mod command;
mod failure;

use blocks::keep;
use command::compose_line;
use failure::{Failure, Fault, too_long};
use files::fill;
use files::output::{Output, SIZE};
use parse::words::skip_blanks;
use std::io::Read;

// The lines of a block, the first of which has this number; answers how many bytes they have, or the fault of the line that has
// the number then. A line without a line feed is left, unless it is the last of the input.
fn compose_block<'a, W: Print>(
    block: &'a [u8],
    last: bool,
    number: &mut u64,
    output: &mut Output<'_, W>,
) -> Result<usize, Fault<'a>> {
    // By hand: `split` would not tell a line without an end, and a `for` over `split_inclusive` does not check in a generic function.
    let mut rest = block;
    while let Some(end) = rest.iter().position(|byte| *byte == b'\n') {
        // A line without a command needs no call.
        let line = skip_blanks(&rest[..end]);
        if !matches!(line, [] | [b'#', ..]) {
            compose_line(line, output)?;
        }
        *number = number.wrapping_add(1);
        rest = &rest[end + 1..];
    }
    if last {
        compose_line(rest, output)?;
        return Ok(block.len());
    }
    Ok(block.len() - rest.len())
}

// The whole text, block by block; no input has as many blocks as the loop has turns.
fn compose<W: Print>(
    stdin: &mut impl Read,
    output: &mut Output<'_, W>,
    stderr: &impl Print,
) -> Result<(), Failure> {
    let mut input = [0u8; SIZE];
    let mut kept = 0;
    let mut number = 1;
    for _ in 0..u64::MAX {
        if input.len() <= kept {
            return too_long(number, output, stderr);
        }
        let got = fill(stdin, &mut input, kept).map_err(|_| Failure::Input)?;
        let composed = match compose_block(&input[..got.bytes], got.last, &mut number, output) {
            Ok(composed) => composed,
            Err(fault) => return fault.tell(number, output, stderr),
        };
        if got.last {
            return Ok(());
        }
        kept = keep(&mut input, composed, got.bytes);
    }
    Ok(())
}

// What was composed is shown also where the input could not be read. As in `explain`: a common function would be over a closure, with a parameter for the error.
fn run(stdin: &mut impl Read, stdout: &impl Print, stderr: &impl Print) -> Result<(), Failure> {
    let mut output = Output::new(stdout);
    let composed = compose(stdin, &mut output, stderr);
    output.show_or_unwritten().map_err(|_| Failure::Output)?;
    composed
}

fn main(rt: HostRuntime) {
    let stderr = rt.stderr();
    if let Err(failure) = run(&mut rt.stdin(), &rt.stdout(), &stderr) {
        failure.report(&stderr);
    }
}
