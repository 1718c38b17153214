// A line as words.
ghost use Rattle.std.specs.Prelude.{◌≡◌, ◌+◌, ◌-◌, length};
ghost use Rattle.parse.specs.Words.{before_comment, blank, blanks, letters, skip_blanks, word, behind, from_word, Part};

// How many bytes stand before the comment.
fn comment_begin(line: &[u8]) -> usize
    ensures { result ≡ length (before_comment line.now) }
{
    line.iter().take_while(|byte| **byte != b'#').count()
}

// The line without its comment.
#[tactic(auto, using(crate::proofs::Walking::comment_front, crate::proofs::Walking::comment_within))]
pub fn before_comment(line: &[u8]) -> &[u8]
    ensures { result.now ≡ before_comment line.now }
{
    &line[..comment_begin(line)]
}

#[tactic(auto, unfolding(crate::specs::Words::blank))]
fn is_blank(byte: u8) -> bool
    ensures { result ≡ blank byte }
{
    matches!(byte, b' ' | b'\t' | b'\r')
}

// How many bytes at the front are blank.
fn blanks(text: &[u8]) -> usize
    ensures { result ≡ blanks text.now }
{
    text.iter().take_while(|byte| is_blank(**byte)).count()
}

// How many are not.
fn letters(text: &[u8]) -> usize
    ensures { result ≡ letters text.now }
{
    text.iter().take_while(|byte| !is_blank(**byte)).count()
}

// The text without the blanks at its front.
#[tactic(auto, using(crate::proofs::Walking::blanks_within), unfolding(crate::specs::Words::skip_blanks))]
pub fn skip_blanks(text: &[u8]) -> &[u8]
    ensures { result.now ≡ skip_blanks text.now }
{
    &text[blanks(text)..]
}

// The word at the front of a text, and what follows it.
#[tactic(auto, using(crate::proofs::Walking::letters_within), unfolding(crate::specs::Words::word, crate::specs::Words::behind))]
pub fn split_word(text: &[u8]) -> (&[u8], &[u8])
    ensures word { result.0.now ≡ word text.now }
    ensures behind { result.1.now ≡ behind text.now }
{
    text.split_at(letters(text))
}

// The text from word number i on, from 0; nothing if it has fewer.
#[tactic(auto, using(crate::proofs::Reading::word_here, crate::proofs::Reading::word_none, crate::proofs::Reading::word_passed))]
fn from_word(text: &[u8], i: usize) -> &[u8]
    ensures { result.now ≡ from_word i text.now }
{
    let mut left = text;
    for _i in 0..i {
        if left.is_empty() {
            return left;
        }
        let (_, rest) = split_word(skip_blanks(left));
        left = rest;
    }
    skip_blanks(left)
}

// Word number i of a line, from 0; empty if it has fewer.
pub fn word_at(line: &[u8], i: usize) -> &[u8]
    ensures { result.now ≡ word (from_word i (before_comment line.now)) }
{
    let (word, _) = split_word(from_word(before_comment(line), i));
    word
}

// Where a word begins and ends in its line.
#[derive(Clone, Copy)]
pub struct Word {
    pub from: usize,
    pub to: usize,
}

// Where word number i of a line stands, from 0; nothing at the end of the text if it has fewer.
#[tactic(auto, using(crate::proofs::Reading::rest_within, crate::proofs::Walking::letters_within))]
pub fn word_place(line: &[u8], i: usize) -> Word
    ensures part { Part line.now result.from result.to (word (from_word i (before_comment line.now))) }
    ensures place { (result.from ≡ length (before_comment line.now) - length (from_word i (before_comment line.now))) × (result.to ≡ result.from + letters (from_word i (before_comment line.now))) }
{
    let text = before_comment(line);
    let rest = from_word(text, i);
    let from = text.len() - rest.len();
    Word {
        from,
        to: from + letters(rest),
    }
}
