// The text of one command, written into a lent buffer.
#![tactic(auto)]

ghost use Rattle.std.specs.Prelude.{◌≡◌, cond, length, take};
ghost use Rattle.request.specs.Fields.{list_of, row};
ghost use Rattle.lines.specs.Text.{Writes};
ghost use Rattle.listing.specs.Listing.{numbers, no_pin, listed};

use lines::Text;
use names::{DECLARE_THREAD, put_name};
use request::all_ones;
use request::fields::{Command, Fields, field_count};

// A line has at most so many bytes.
pub const LINE: usize = 93;

// Is it a thread whose pin is none?
#[tactic(auto, unfolding(crate::specs::Listing::no_pin, request::specs::Fields::list_of, rules::specs::Requests::nth))]
fn no_pin(command: Command, wide: bool) -> bool
    ensures { result ≡ no_pin wide command.byte (list_of command.fields) }
{
    command.byte == DECLARE_THREAD && command.fields.fourth == all_ones(wide)
}

// How many fields its line shows.
#[tactic(auto, using(request::proofs::ByWidths::rows_alike))]
fn shown_count(command: Command, wide: bool) -> usize
    ensures { result ≡ cond (no_pin wide command.byte (list_of command.fields)) 3 (length (row wide command.byte)) }
{
    if no_pin(command, wide) {
        3
    } else {
        field_count(command.byte)
    }
}

// The first `count` fields, each behind a space.
fn put_fields(text: &mut Text<'_>, fields: Fields, count: usize)
    ensures { Writes text (numbers (take count (list_of fields))) }
{
    let all = <[u64; 4]>::from(fields);
    for number in &all[..count.min(all.len())] {
        text.put(b' ');
        text.put_number(*number);
    }
}

// The line of one command; with room for `LINE` bytes it stands whole (proofs/Whole).
#[tactic(auto, using(lines::proofs::Writing::write_append), unfolding(crate::specs::Listing::listed, crate::specs::Listing::shown_fields, rules::specs::Lines::line_feed))]
pub fn list_command(text: &mut Text<'_>, command: Command, wide: bool)
    ensures { Writes text (listed wide command.byte (list_of command.fields)) }
{
    let count = shown_count(command, wide);
    put_name(text, command.byte);
    put_fields(text, command.fields, count);
    text.put(b'\n');
}
