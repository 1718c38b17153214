// Stored calls of the writer, each made again and compared. Standard input holds them one after the other, 56 bytes each (oracle/vectors/README.md): the
// command byte and four fields, eight bytes each; the form of the stream; the length of the lent buffer; the refusal; the bytes written; the buffer after
// the call.
#![tactic(auto)]

use files::read_full;
use files::tally::Tally;
use request::fields::Fields;
use std::io::Read;
use writer::write_command;

const CASE: usize = 56;

const FORM: usize = 40;

const LENGTH: usize = 41;

const REFUSAL: usize = 42;

const COUNT: usize = 43;

const CONTENT: usize = 44;

// The buffer before each call.
const MARKED: [u8; 12] = [
    0xa0, 0xa1, 0xa2, 0xa3, 0xa4, 0xa5, 0xa6, 0xa7, 0xa8, 0xa9, 0xaa, 0xab,
];

// The first eight bytes; 0 where there are fewer.
fn number(bytes: &[u8]) -> u64 {
    bytes
        .first_chunk()
        .map_or(0, |bytes| u64::from_le_bytes(*bytes))
}

// The call answers what is stored and leaves the buffer that is stored, what was not lent included.
fn agrees(case: &[u8; CASE]) -> bool {
    let mut buffer = MARKED;
    let fields = Fields {
        first: number(&case[8..]),
        second: number(&case[16..]),
        third: number(&case[24..]),
        fourth: number(&case[32..]),
    };
    let length = usize::from(case[LENGTH]);
    if buffer.len() < length {
        return false;
    }
    let byte = number(case);
    let wide = case[FORM] == 1;
    let (refusal, count) = match write_command(byte, fields, wide, &mut buffer[..length]) {
        Ok(n) => (0, n),
        Err(refusal) => (u64::from(refusal), 0),
    };
    refusal == u64::from(case[REFUSAL])
        && count == usize::from(case[COUNT])
        && buffer.as_slice() == &case[CONTENT..]
}

// As many cases as there are, a million at most. One that is cut short differs.
fn run(stdin: &mut impl Read) -> Tally {
    let mut case = [0u8; CASE];
    let mut tally = Tally::default();
    for _ in 0..1000000 {
        let got = read_full(stdin, &mut case);
        if got == 0 {
            return tally;
        }
        tally.add(got == CASE && agrees(&case));
    }
    tally
}

fn main(rt: HostRuntime) {
    let tally = run(&mut rt.stdin());
    let stdout = rt.stdout();
    let _ = println!(stdout; "{} cases, {} differ", tally.cases, tally.differ);
}
