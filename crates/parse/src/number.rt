// The number that a word stands for.
ghost use Rattle.std.specs.Prelude.{◌≡◌};
ghost use Rattle.parse.specs.Numbers.{digit, base, next, digits, number_of};

// `char::to_digit` would answer a `u32`, of a `char`.
#[tactic(auto, unfolding(crate::specs::Numbers::digit))]
fn digit(byte: u8) -> Option<u64>
    ensures { result ≡ digit byte }
{
    match byte {
        b'0'..=b'9' => Some(u64::from(byte - b'0')),
        b'A'..=b'F' => Some(u64::from(byte - b'A' + 10)),
        b'a'..=b'f' => Some(u64::from(byte - b'a' + 10)),
        _ => None,
    }
}

// Hexadecimal or decimal, as the definitions say it: given the base itself, each clause here would ask which of the two it is.
#[tactic(auto, unfolding(crate::specs::Numbers::base))]
fn base(hexadecimal: bool) -> u64
    ensures { result ≡ base hexadecimal }
{
    if hexadecimal { 16 } else { 10 }
}

// The number n with the digit d behind it.
#[tactic(auto, unfolding(crate::specs::Numbers::next))]
fn next(hexadecimal: bool, n: u64, d: u64) -> Option<u64>
    ensures { result ≡ next hexadecimal n d }
{
    let base = base(hexadecimal);
    if d < base {
        return n.checked_mul(base)?.checked_add(d);
    }
    None
}

#[tactic(auto, using(crate::proofs::Numbers::digit_more, crate::proofs::Numbers::digit_none, crate::proofs::Numbers::digits_begin, crate::proofs::Numbers::digits_end, crate::proofs::Numbers::no_digit, crate::proofs::Numbers::no_digits))]
fn digits(word: &[u8], hexadecimal: bool) -> Option<u64>
    ensures { result ≡ digits hexadecimal word.now }
{
    if word.is_empty() {
        return None;
    }
    let mut n = 0;
    for byte in word {
        n = next(hexadecimal, n, digit(*byte)?)?;
    }
    Some(n)
}

// The library's `from_str_radix` reads a text, not bytes, and takes a sign before the digits.
#[tactic(auto, unfolding(crate::specs::Numbers::number_of, crate::specs::Numbers::is_hexadecimal))]
pub fn number_of(word: &[u8]) -> Option<u64>
    ensures { result ≡ number_of word.now }
{
    match word {
        [b'0', b'x', rest @ ..] => digits(rest, true),
        _ => digits(word, false),
    }
}
