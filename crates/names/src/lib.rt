// The names of the commands and of their fields, put into a text.
#![tactic(auto)]

ghost use Rattle.std.specs.Prelude.{◌≡◌, ◌==◌, Option, None, Some, cond, length, map, option_map};
ghost use Rattle.lines.specs.Text.{Writes};
ghost use Rattle.names.specs.Names.{name_of, field_name, ascii, naming_among, namings};

use lines::Text;

// The byte of `thread`, the one command whose last field may be left out of its text.
pub const DECLARE_THREAD: u8 = 0x10;

// The name of a command and those of its fields: "" and no fields where no command has this byte.
fn names(byte: u8) -> (&'static str, &'static [&'static str])
    ensures { (result.0.now ≡ name_of byte) × (map (λ s. s.now) result.1.now ≡ map ascii (naming_among byte namings).fields) }
{
    // A jump on the byte, beside `parse`'s table by name. Tried: one `static` of rows for both, with which `explain` takes 7 to 11 % more time; `parse` searching this
    // one byte by byte, with which `compose` takes 32 % more instructions and 20 % more time.
    match byte {
        0x01 => ("cpu", &["cpu"]),
        0x02 => ("node", &["parent", "type"]),
        0x03 => ("place", &["node", "cpu"]),
        0x04 => ("seal", &[]),
        0x05 => ("shortest", &["ticks"]),
        0x10 => ("thread", &["thread", "class", "value", "pin"]),
        0x11 => ("tick", &["tick"]),
        0x12 => ("wake", &["cpu", "thread"]),
        0x13 => ("schedule", &["cpu", "flags"]),
        0x14 => ("hardtick", &["cpu"]),
        0x15 => ("stattick", &["cpu", "nanoseconds"]),
        0x16 => ("resched", &["cpu"]),
        0x17 => ("preempt", &["cpu"]),
        0x18 => ("donate", &["cpu", "thread", "class", "value"]),
        0x19 => ("undonate", &["thread"]),
        0x1a => ("critical", &["thread", "mark"]),
        _ => ("", &[]),
    }
}

// The name of the command with this byte; any byte may come, and one that is not in the table has none.
pub fn put_name(text: &mut Text<'_>, byte: u8)
    ensures { Writes text (name_of byte) }
{
    let (name, _) = names(byte);
    text.put_bytes(name.as_bytes());
}

// The name of a command's field number i, from 0; none where it has no such field.
pub fn field_name(byte: u8, i: usize) -> Option<&'static str>
    ensures { option_map (λ s. s.now) result ≡ cond (length (field_name byte i) == 0) None (Some (field_name byte i)) }
{
    let (_, fields) = names(byte);
    fields.get(i).copied()
}

// The same, put into a text; nothing where there is none.
#[tactic(auto, using(crate::proofs::Fields::no_field), unfolding(lines::specs::Text::write))]
pub fn put_field_name(text: &mut Text<'_>, byte: u8, i: usize)
    ensures { Writes text (field_name byte i) }
{
    if let Some(name) = field_name(byte, i) {
        text.put_bytes(name.as_bytes());
    }
}
