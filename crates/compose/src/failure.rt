// Why a run ends before its input does, and what standard error says of it.
use files::output::Output;
use lines::{Refusal, Text};
use names::field_name;
use parse::name::byte_named;
use parse::words::word_at;

// A word of more bytes is cut.
const WORD: usize = 64;

// No line has more than 132 bytes.
const SIZE: usize = 136;

// Why a line is not composed. It borrows the line, so that what each line answers stays small.
#[derive(Clone, Copy)]
pub enum Fault<'a> {
    // Standard output could not be written.
    Output,
    // The line is refused, for its word of this number.
    Refused {
        line: &'a [u8],
        refusal: Refusal,
        word: usize,
    },
}

// Why a run ends that no line ends. As in `replay` and `explain`: a common enum would be one more case to take apart in `explain`, and `println!`, by which they tell it, takes
// 2.5 KB of the stack, where the input and the output are on it too.
#[derive(Clone, Copy)]
pub enum Failure {
    Input,
    Output,
}

fn put_word(text: &mut Text<'_>, word: &[u8]) {
    if word.len() <= WORD {
        text.put_bytes(word);
    } else {
        let (front, _) = word.split_at(WORD);
        text.put_bytes(front);
        text.put_bytes(b"...");
    }
}

// What is wrong with a field: it is missing, or the word is no fit.
fn put_fault(text: &mut Text<'_>, word: &[u8]) {
    if word.is_empty() {
        text.put_bytes(b" missing");
    } else {
        text.put(b' ');
        put_word(text, word);
    }
}

// Field number i of the command that the line names, which is word number i + 1: missing, no fit, or one too many.
fn put_field(text: &mut Text<'_>, line: &[u8], i: usize, word: &[u8]) {
    match byte_named(word_at(line, 0)).and_then(|byte| field_name(byte, i)) {
        None => {
            text.put_bytes(b"too many words: ");
            put_word(text, word);
        }
        Some(name) => {
            text.put_bytes(name.as_bytes());
            put_fault(text, word);
        }
    }
}

// Word number i of the line, from 0, which is its name: unknown, or a field's.
fn put_reason(text: &mut Text<'_>, line: &[u8], i: usize) {
    let word = word_at(line, i);
    if i == 0 {
        put_word(text, word);
    } else {
        put_field(text, line, i - 1, word);
    }
}

// Where standard error could not be written, nothing can be told of it. Not inlined: the error of a write takes 88 bytes of the stack at each place that may get one.
#[inline(never)]
fn say(stderr: &impl Print, text: &[u8]) {
    let _ = stderr.write_all(text);
}

// The run ends at the line of this number: what was composed is shown, then standard error has why the line is refused. Not in the failure that is answered: one that held
// the text would be copied on its way up, while the input and the output are on the stack. In bytes, since a word of the input may be no UTF-8; those past the last one that
// the text can hold are left out.
#[inline(never)]
fn refuse<W: Print, F: FnOnce(&mut Text<'_>)>(
    output: &mut Output<'_, W>,
    stderr: &impl Print,
    number: u64,
    refusal: Refusal,
    reason: F,
) -> Result<(), Failure>
    requires { F.IsAlwaysCallable reason }
{
    output.show_or_unwritten().map_err(|_| Failure::Output)?;
    let mut bytes = [0; SIZE];
    let mut text = Text {
        buffer: &mut bytes,
        at: 0,
    };
    text.put_bytes(b"compose: line ");
    text.put_number(number);
    text.put_bytes(b": refused ");
    text.put_number(u64::from(refusal));
    text.put_bytes(b": ");
    reason(&mut text);
    text.put(b'\n');
    let len = text.at.min(SIZE);
    say(stderr, &bytes[..len]);
    Ok(())
}

impl Fault<'_> {
    // Ends the run at the line of this number.
    pub fn tell<W: Print>(
        self,
        number: u64,
        output: &mut Output<'_, W>,
        stderr: &impl Print,
    ) -> Result<(), Failure> {
        match self {
            Fault::Output => Err(Failure::Output),
            Fault::Refused {
                line,
                refusal,
                word,
            } => refuse(output, stderr, number, refusal, |text: &mut Text<'_>| {
                put_reason(text, line, word)
            }),
        }
    }
}

// The line of this number is longer than the input.
pub fn too_long<W: Print>(
    number: u64,
    output: &mut Output<'_, W>,
    stderr: &impl Print,
) -> Result<(), Failure> {
    refuse(
        output,
        stderr,
        number,
        Refusal::OutOfRange,
        |text: &mut Text<'_>| text.put_bytes(b"line too long"),
    )
}

impl Failure {
    pub fn report(self, stderr: &impl Print) {
        match self {
            Failure::Input => say(stderr, b"compose: standard input could not be read\n"),
            Failure::Output => say(stderr, b"compose: standard output could not be written\n"),
        }
    }
}
