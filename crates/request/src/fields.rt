// A command as its byte and four numbers, its operands in the order of document 01's table: their widths, their ranges, and how they are read.
ghost use Rattle.std.specs.Prelude.{◌≡◌, false, length, drop};
ghost use Rattle.rules.specs.Requests.{operands};
ghost use Rattle.rules.specs.Writer.{ranges};
ghost use Rattle.request.specs.Request.{limits_of};
ghost use Rattle.request.specs.Fields.{list_of, four, row};

use crate::{
    MOST_FLAGS, MOST_MARK, MOST_TYPE, Operands, priority_in_range, shortest_in_range, width,
};

// A command that has fewer operands has 0 in the others. Four fields, as C passes them.
#[repr(C)]
#[derive(Clone, Copy)]
pub struct Fields {
    pub first: u64,
    pub second: u64,
    pub third: u64,
    pub fourth: u64,
}

impl From<Fields> for [u64; 4] {
    ghost from_gives = { λ fields numbers. numbers ≡ list_of fields };

    #[tactic(auto, unfolding(crate::specs::Fields::list_of))]
    fn from(fields: Fields) -> [u64; 4] {
        [fields.first, fields.second, fields.third, fields.fourth]
    }
}

impl From<[u64; 4]> for Fields {
    ghost from_gives = { λ numbers fields. list_of fields ≡ numbers };

    #[tactic(auto, unfolding(crate::specs::Fields::list_of))]
    fn from(numbers: [u64; 4]) -> Fields {
        let [first, second, third, fourth] = numbers;
        Fields {
            first,
            second,
            third,
            fourth,
        }
    }
}

// Any byte, in the table or not, as `widths_of` takes it, and any fields: an enum of commands would ask more of callers.
#[derive(Clone, Copy)]
pub struct Command {
    pub byte: u8,
    pub fields: Fields,
}

// How many bytes each operand of a command has; 0 where there is none, and for a byte that is not in the table.
#[tactic(auto, using(crate::proofs::Table::no_row), unfolding(crate::specs::Fields::row, rules::specs::Writer::row, rules::specs::Requests::widths, rules::specs::Requests::widths_or, crate::specs::Request::limits_of, crate::specs::Fields::four, rules::specs::Requests::nth, rules::proofs::Laws::Apart::Apart))]
pub fn widths_of(byte: u8, wide: bool) -> [usize; 4]
    ensures { result ≡ four (row wide byte) }
{
    let n = width(wide);
    match byte {
        0x01 => [n, 0, 0, 0],
        0x02 => [n, 1, 0, 0],
        0x03 => [n, n, 0, 0],
        0x04 => [0, 0, 0, 0],
        0x05 => [1, 0, 0, 0],
        0x10 => [2, 1, 1, n],
        0x11 => [8, 0, 0, 0],
        0x12 => [n, 2, 0, 0],
        0x13 => [n, 1, 0, 0],
        0x14 => [n, 0, 0, 0],
        0x15 => [n, 4, 0, 0],
        0x16 => [n, 0, 0, 0],
        0x17 => [n, 0, 0, 0],
        0x18 => [n, 2, 1, 1],
        0x19 => [2, 0, 0, 0],
        0x1a => [2, 1, 0, 0],
        _ => [0, 0, 0, 0],
    }
}

// How many fields a command has, in either form of the stream; none for a byte that is not in the table.
#[tactic(auto, using(crate::proofs::ByWidths::row_plain))]
pub fn field_count(byte: u8) -> usize
    ensures { result ≡ length (row false byte) }
{
    let widths = widths_of(byte, false);
    widths.iter().filter(|n| **n > 0).count()
}

impl Command {
    // Question 6 as far as it needs no state, of fields that no request holds yet; a byte that is not in the table is asked as hex 1A. A row for each byte, at
    // which the proof computes.
    #[tactic(auto, using(crate::proofs::ByWidths::last_ranges), unfolding(rules::specs::Writer::ranges, rules::specs::Requests::request, crate::specs::Fields::list_of, rules::specs::Requests::nth, rules::specs::Questions::question, rules::specs::Questions::at_most, rules::proofs::Laws::Apart::Apart))]
    pub fn ranges(self, wide: bool) -> bool
        ensures { result ≡ ranges (limits_of wide) self.byte (list_of self.fields) }
    {
        let fields = self.fields;
        match self.byte {
            0x01 => true,
            0x02 => fields.second <= MOST_TYPE,
            0x03 => true,
            0x04 => true,
            0x05 => shortest_in_range(fields.first),
            0x10 => priority_in_range(fields.second, fields.third),
            0x11 => true,
            0x12 => true,
            0x13 => fields.second <= MOST_FLAGS,
            0x14 => true,
            0x15 => true,
            0x16 => true,
            0x17 => true,
            0x18 => priority_in_range(fields.third, fields.fourth),
            0x19 => true,
            _ => fields.second <= MOST_MARK,
        }
    }
}

// The operands that begin at `at`, which may lie past the end, as for `read`; bytes that are not there count as 0. Tried as a `map` of the
// widths: its closure needs the clauses of `next` once more, and a goal stays open.
#[tactic(auto, using(crate::proofs::ByWidths::width_most, crate::proofs::ByWidths::four_read, crate::proofs::Bytes::drop_min, std::proofs::lemmas::List::take_rest), unfolding(crate::specs::Fields::list_of, crate::specs::Fields::four))]
pub fn operands(bytes: &[u8], at: usize, byte: u8, wide: bool) -> Fields
    ensures { list_of result ≡ four (operands (row wide byte) (drop at bytes.now)) }
{
    let [first, second, third, fourth] = widths_of(byte, wide);
    let mut rest = Operands {
        bytes: &bytes[at.min(bytes.len())..],
        wide,
    };
    Fields {
        first: rest.next(first),
        second: rest.next(second),
        third: rest.next(third),
        fourth: rest.next(fourth),
    }
}
