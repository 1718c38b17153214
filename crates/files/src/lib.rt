// Standard input block by block, bytes for a file, and a tally of what was compared.
#![tactic(auto)]

pub mod output;
pub mod tally;

ghost use Rattle.std.specs.Prelude.{◌≡◌, ◌≤◌, length, nat_le, IfOk};

use std::io;
use std::io::Read;

// The bytes at the front of the input, and whether they are the last. No `Option`: the last bytes are bytes too.
#[derive(Clone, Copy)]
pub struct Filled {
    pub bytes: usize,
    pub last: bool,
}

// One read of a file behind the first `kept` bytes. One that adds nothing and does not fail is the end of the input, as is an input without room for a byte.
pub fn fill(file: &mut impl Read, input: &mut [u8], kept: usize) -> io::Result<Filled>
    ensures bytes { IfOk result (λ f. f.bytes ≤ length input.new) }
    ensures last { IfOk result (λ f. f.last ≡ nat_le f.bytes kept) }
{
    // By index: `get_mut(kept..)` gives an empty slice at the end, so it would need a test for that beside it.
    if kept < input.len() {
        let count = file.read(&mut input[kept..])?;
        return Ok(Filled {
            bytes: kept + count,
            last: count == 0,
        });
    }
    Ok(Filled {
        bytes: input.len(),
        last: true,
    })
}

// Reads until the buffer is full, the input ends or a read fails; answers how many bytes came, which are at the front of the buffer.
pub fn read_full(file: &mut impl Read, buffer: &mut [u8]) -> usize
    ensures { result ≤ length buffer.new }
{
    // No range to go over: each turn goes as far as its read does.
    let mut done: usize = 0;
    while done < buffer.len() {
        match file.read(&mut buffer[done..]) {
            Ok(0) => return done,
            Ok(n) => done += n,
            Err(_) => return done,
        }
    }
    done
}
