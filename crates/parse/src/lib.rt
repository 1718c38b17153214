// What one line of text means: a command with its fields, or why not.
#![tactic(auto)]

pub mod name;
pub mod number;
pub mod words;

ghost use Rattle.std.specs.Prelude.{◌≡◌, [], length};
ghost use Rattle.request.specs.Fields.{list_of, four, row};
ghost use Rattle.parse.specs.Meaning.{is_pin, no_pin, pin, field, ended, fields_from, text_meaning, meaning, meaning_of};

use name::byte_named;
use names::DECLARE_THREAD;
use number::number_of;
use request::all_ones;
pub use request::fields::Command;
use request::fields::{Fields, field_count};
use words::{before_comment, skip_blanks, split_word};

// Why a line is no command.
#[derive(Clone, Copy)]
pub enum Misfit {
    // No command has its name.
    Unknown,
    // The word of this number, the name being word 0, is missing, is no number, or is one too many.
    Unfit(usize),
}

// Is it the pin of a thread, its last field?
#[tactic(auto, unfolding(crate::specs::Meaning::is_pin))]
fn is_pin(byte: u8, i: usize) -> bool
    ensures { result ≡ is_pin byte i }
{
    byte == DECLARE_THREAD && i == 3
}

#[tactic(auto, unfolding(crate::specs::Meaning::no_pin, names::specs::Names::ascii))]
fn is_no_pin(word: &[u8]) -> bool
    ensures { result ≡ no_pin word.now }
{
    word.is_empty() || word == b"-".as_slice()
}

#[tactic(auto, unfolding(crate::specs::Meaning::pin))]
fn pin(word: &[u8], wide: bool) -> Option<u64>
    ensures { result ≡ pin wide word.now }
{
    if is_no_pin(word) {
        return Some(all_ones(wide));
    }
    number_of(word)
}

// Field number i of a command, from 0.
#[tactic(auto, unfolding(crate::specs::Meaning::field))]
fn field(word: &[u8], byte: u8, i: usize, wide: bool) -> Option<u64>
    ensures { result ≡ field wide byte i word.now }
{
    if is_pin(byte, i) {
        return pin(word, wide);
    }
    number_of(word)
}

// All fields are read: the text has to end.
#[tactic(auto, unfolding(crate::specs::Meaning::ended, crate::specs::Meaning::meaning_of))]
fn ended(text: &[u8], command: Command, word: usize) -> Result<Option<Command>, Misfit>
    ensures { meaning_of result ≡ ended command.byte word (list_of command.fields) text.now }
{
    if skip_blanks(text).is_empty() {
        return Ok(Some(command));
    }
    Err(Misfit::Unfit(word))
}

// The fields of a command out of the text behind its name, and 0 in the others. By number: `field` and a misfit say it too.
#[tactic(auto, using(crate::proofs::Reading::at_most_four, crate::proofs::Reading::fields_done, crate::proofs::Reading::fields_next, crate::proofs::Reading::fields_stop, request::proofs::ByWidths::rows_alike), unfolding(crate::specs::Meaning::meaning_of, request::specs::Fields::four, rules::specs::Requests::nth))]
fn fields(text: &[u8], byte: u8, wide: bool) -> Result<Option<Command>, Misfit>
    ensures { meaning_of result ≡ fields_from wide byte 0 (length (row wide byte)) (four []) text.now }
{
    let count = field_count(byte);
    let mut found = [0; 4];
    let mut left = text;
    for i in 0..count {
        let (word, rest) = split_word(skip_blanks(left));
        let Some(value) = field(word, byte, i, wide) else {
            return Err(Misfit::Unfit(i + 1));
        };
        found[i] = value;
        left = rest;
    }
    let fields = Fields::from(found);
    ended(left, Command { byte, fields }, count + 1)
}

// What a line without its comment means.
#[tactic(auto, unfolding(crate::specs::Meaning::text_meaning, crate::specs::Meaning::named_meaning, crate::specs::Meaning::meaning_of))]
fn parse_text(text: &[u8], wide: bool) -> Result<Option<Command>, Misfit>
    ensures { meaning_of result ≡ text_meaning wide text.now }
{
    let begun = skip_blanks(text);
    if begun.is_empty() {
        return Ok(None);
    }
    let (name, rest) = split_word(begun);
    match byte_named(name) {
        None => Err(Misfit::Unknown),
        Some(byte) => fields(rest, byte, wide),
    }
}

// What a line means; nothing if it has no words.
#[tactic(auto, unfolding(crate::specs::Meaning::meaning))]
pub fn parse(line: &[u8], wide: bool) -> Result<Option<Command>, Misfit>
    ensures { meaning_of result ≡ meaning wide line.now }
{
    parse_text(before_comment(line), wide)
}
