// Command bytes from standard input, their text to standard output, one line to a command.
#![tactic(auto)]

mod failure;

use blocks::keep;
use failure::Failure;
use files::fill;
use files::output::{Output, SIZE};
use lines::Text;
use listing::{LINE, list_command};
use request::fields::{Command, operands};
use request::operand_bytes;
use std::io::Read;

// The commands of a block, which begins at this offset in the stream; answers how many bytes they have. A command that is not whole is left.
fn list_block<W: Print>(
    block: &[u8],
    offset: u64,
    output: &mut Output<'_, W>,
) -> Result<usize, Failure> {
    // No range says how often: a command has as many bytes as its first one says.
    let mut rest = block;
    while let [byte, behind @ ..] = rest {
        let byte = *byte;
        let Some(count) = operand_bytes(byte, false) else {
            let at = block.len() - rest.len();
            let offset = offset.wrapping_add(at as u64);
            return Err(Failure::Unknown { offset, byte });
        };
        if behind.len() < count {
            break;
        }
        output
            .make_room_or_unwritten(LINE)
            .map_err(|_| Failure::Output)?;
        let fields = operands(behind, 0, byte, false);
        let mut text = Text {
            buffer: &mut output.bytes[output.done..],
            at: 0,
        };
        list_command(&mut text, Command { byte, fields }, false);
        let n = text.at;
        output.add(n);
        rest = &behind[count..];
    }
    Ok(block.len() - rest.len())
}

// The whole stream, shown block by block; no input has as many blocks as the loop has turns.
fn list<W: Print>(stdin: &mut impl Read, output: &mut Output<'_, W>) -> Result<(), Failure> {
    let mut input = [0u8; SIZE];
    let mut kept = 0;
    let mut offset: u64 = 0;
    for _ in 0..u64::MAX {
        let got = fill(stdin, &mut input, kept).map_err(|_| Failure::Input)?;
        let listed = list_block(&input[..got.bytes], offset, output)?;
        output.show_or_unwritten().map_err(|_| Failure::Output)?;
        kept = keep(&mut input, listed, got.bytes);
        offset = offset.wrapping_add(listed as u64);
        if got.last && 0 < kept {
            let byte = input[0];
            return Err(Failure::CutShort { offset, byte });
        }
        if got.last {
            return Ok(());
        }
    }
    Ok(())
}

// What is listed is shown also where the stream has a fault. As in `compose`: a common function would be over a closure, with a parameter for the error. Not inlined,
// so that the buffers are off the stack when a failure is told.
#[inline(never)]
fn run(stdin: &mut impl Read, stdout: &impl Print) -> Result<(), Failure> {
    let mut output = Output::new(stdout);
    let listed = list(stdin, &mut output);
    output.show_or_unwritten().map_err(|_| Failure::Output)?;
    listed
}

fn main(rt: HostRuntime) {
    if let Err(failure) = run(&mut rt.stdin(), &rt.stdout()) {
        failure.tell(&rt.stdout(), &rt.stderr());
    }
}
