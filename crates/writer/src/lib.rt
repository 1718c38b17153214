// The writer of document 02, request 2026-02: one command with its fields, written into a lent buffer.
#![tactic(auto)]

ghost use Rattle.std.specs.Prelude.{◌≡◌, ◌≤◌, ◌^◌, ltb};
ghost use Rattle.rules.specs.Writer.{little_endian, bytes_of, fits};
ghost use Rattle.request.specs.Request.{limits_of};
ghost use Rattle.request.specs.Fields.{list_of, row};
ghost use Rattle.lines.specs.Text.{Writes, text, write};
ghost use Rattle.writer.specs.Writer.{written_of, no_misfit, known, known_after, answer, buffer_after};

use lines::{Refusal, Text};
use request::fields::{Command, Fields, widths_of};
use request::operand_bytes;

// Is the number below 256 to the width?
#[tactic(auto, using(crate::proofs::Rows::narrow, crate::proofs::Rows::wide_enough))]
fn below(v: u64, n: usize) -> bool
    ensures { result ≡ ltb v (256 ^ n) }
{
    n >= 8 || v >> (8 * n) == 0
}

// Does each field fit its width?
fn fit(command: Command, wide: bool) -> bool
    ensures { result ≡ fits (row wide command.byte) (list_of command.fields) }
{
    let widths = widths_of(command.byte, wide);
    let fields = <[u64; 4]>::from(command.fields);
    fields.iter().zip(&widths).all(|(v, n)| below(*v, *n))
}

// Question 6: does each field fit its width, and is it in its range?
#[tactic(auto, unfolding(crate::specs::Writer::no_misfit, rules::specs::Writer::no_misfit, rules::specs::Questions::question, request::specs::Fields::row))]
fn no_misfit(command: Command, wide: bool) -> bool
    ensures { result ≡ no_misfit wide command.byte (list_of command.fields) }
{
    fit(command, wide) && command.ranges(wide)
}

// A number in n bytes, the least first. n is a width of the table, at most eight; for more bytes there would be nothing to say.
#[tactic(auto, using(crate::proofs::Rows::first_bytes))]
fn put_field(text: &mut Text<'_>, n: usize, v: u64)
    requires { n ≤ 8 }
    ensures { Writes text (little_endian n v) }
{
    text.put_bytes(&v.to_le_bytes()[..n]);
}

// The command byte and its fields, from the buffer's front.
fn put_command(buffer: &mut [u8], command: Command, wide: bool) -> usize
    ensures { text buffer.new result ≡ write (text buffer.old 0) (bytes_of (limits_of wide) command.byte (list_of command.fields)) }
{
    let widths = widths_of(command.byte, wide);
    let fields = <[u64; 4]>::from(command.fields);
    let mut text = Text { buffer, at: 0 };
    text.put(command.byte);
    for (n, v) in widths.iter().zip(&fields) {
        put_field(&mut text, *n, *v);
    }
    text.at
}

// A command whose operands have n bytes. It answers n + 1, and not what `put_command` does: the clause is for any n, and the two agree at the byte's own n alone.
#[tactic(auto, using(crate::proofs::Rows::at_front), unfolding(crate::specs::Writer::written_of, crate::specs::Writer::known_answer, crate::specs::Writer::known_buffer, lines::specs::Lines::refusal_number, lines::specs::Lines::question_number))]
fn write_known(command: Command, n: usize, wide: bool, buffer: &mut [u8]) -> Result<usize, Refusal>
    ensures { (written_of result ≡ known wide command.byte n command.fields buffer.old) × (buffer.new ≡ known_after wide command.byte n command.fields buffer.old) }
{
    if !no_misfit(command, wide) {
        return Err(Refusal::OutOfRange);
    }
    if buffer.len() <= n {
        return Err(Refusal::ShortBuffer);
    }
    put_command(buffer, command, wide);
    Ok(n + 1)
}

// The command in the buffer's first bytes. Any number may come as its byte, as from C, so it is no `Command` yet. An operand that names a CPU or a
// node has two bytes if `wide`, else one; a pin is the number that is written.
pub fn write_command(
    byte: u64,
    fields: Fields,
    wide: bool,
    buffer: &mut [u8],
) -> Result<usize, Refusal>
    ensures { (written_of result ≡ answer wide byte fields buffer.old) × (buffer.new ≡ buffer_after wide byte fields buffer.old) }
{
    let Ok(byte) = u8::try_from(byte) else {
        return Err(Refusal::UnknownCommand);
    };
    let n = operand_bytes(byte, wide).ok_or(Refusal::UnknownCommand)?;
    write_known(Command { byte, fields }, n, wide, buffer)
}
