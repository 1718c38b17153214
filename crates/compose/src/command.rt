// One line composed into the output.
use crate::failure::Fault;
use files::output::Output;
use lines::Refusal;
use parse::{Command, Misfit, parse};
use request::fields::Fields;
use writer::write_command;

// No command has so many bytes.
const ROOM: usize = 32;

// The command with its first `count` fields, and 0 in the others.
fn front(command: Command, count: usize) -> Command {
    let mut fields = <[u64; 4]>::from(command.fields);
    fields[count.min(4)..].fill(0);
    Command {
        fields: Fields::from(fields),
        ..command
    }
}

fn write(command: Command, buffer: &mut [u8]) -> Result<usize, Refusal> {
    write_command(u64::from(command.byte), command.fields, false, buffer)
}

fn is_refused(command: Command) -> bool {
    write(command, &mut [0u8; ROOM]).is_err()
}

// The word for which the writer refuses a command: the name, or the first field that does not fit.
fn word_refused(refusal: Refusal, command: Command) -> usize {
    match refusal {
        Refusal::UnknownCommand => 0,
        _ => (1..4)
            .find(|word| is_refused(front(command, *word)))
            .unwrap_or(4),
    }
}

fn compose_command<'a, W: Print>(
    command: Command,
    line: &'a [u8],
    output: &mut Output<'_, W>,
) -> Result<(), Fault<'a>> {
    output
        .make_room_or_unwritten(ROOM)
        .map_err(|_| Fault::Output)?;
    match write(command, &mut output.bytes[output.done..]) {
        Ok(n) => {
            output.add(n);
            Ok(())
        }
        Err(refusal) => Err(Fault::Refused {
            line,
            refusal,
            word: word_refused(refusal, command),
        }),
    }
}

pub fn compose_line<'a, W: Print>(
    line: &'a [u8],
    output: &mut Output<'_, W>,
) -> Result<(), Fault<'a>> {
    let (refusal, word) = match parse(line, false) {
        Ok(None) => return Ok(()),
        Ok(Some(command)) => return compose_command(command, line, output),
        Err(Misfit::Unknown) => (Refusal::UnknownCommand, 0),
        Err(Misfit::Unfit(word)) => (Refusal::OutOfRange, word),
    };
    Err(Fault::Refused {
        line,
        refusal,
        word,
    })
}
