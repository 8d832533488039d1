// Where blanks and words end.
ghost use Rattle.std.specs.Prelude.{◌≡◌, ◌<◌, ◌≤◌, length, IfOk};
ghost use Rattle.std.specs.List.{prefix_len};
ghost use Rattle.words.specs.Bytes.{goes_on};
ghost use Rattle.words.specs.Words.{closing, end_at, number_at, word_at, seen_at};

use crate::bytes::{byte_at, class_of, closes_comment, goes_on};
use crate::word::{Class, Run, Word, WordFault};

// How many bytes of a comment stand before the two that close it; none where it is never closed.
// By index, each second byte read only behind a star: a `zip` of the bytes and those behind them took 1.4 times as many instructions, a `for` over the index 1.7 times.
pub(crate) fn closing(inner: &[u8]) -> Option<usize>
    ensures { result ≡ closing inner.now }
{
    let mut length = 0;
    while length + 1 < inner.len() {
        if closes_comment(inner[length], inner[length + 1]) {
            return Some(length);
        }
        length += 1;
    }
    None
}

// How many bytes at the front go on with a word.
fn run_length(run: Run, bytes: &[u8]) -> usize
    ensures is { result ≡ prefix_len (goes_on run) bytes.now }
    ensures within { result ≤ length bytes.now }
{
    bytes.iter().take_while(|b| goes_on(run, **b)).count()
}

// A place of a text where a byte stands, which may begin a word.
#[derive(Clone, Copy)]
pub(crate) struct Start<'t> {
    pub(crate) text: &'t [u8],
    pub(crate) place: usize,
    ghost there: { place < length text.now },
}

impl<'t> Start<'t> {
    // The place after the byte here and the bytes behind it that go on with the word.
    fn run_end(&self, run: Run) -> usize
        ensures is { result ≡ end_at run self.now.text.now self.now.place }
        ensures within { (self.now.place < result) × (result ≤ length self.now.text.now) }
    {
        let behind = self.place + 1;
        behind + run_length(run, &self.text[behind..])
    }

    // The number word whose first byte, minus or digit, stands here.
    fn number(&self) -> Result<(Word<'t>, usize), WordFault>
        ensures is { seen_at result ≡ number_at self.now.text.now self.now.place }
        ensures within { IfOk result (λ x. (self.now.place < x.1) × (x.1 ≤ length self.now.text.now)) }
    {
        let end = self.run_end(Run::Digits);
        let bytes = &self.text[self.place..end];
        match numbers::value(bytes) {
            Some(_) => Ok((Word::Number(bytes), end)),
            None => Err(WordFault::OutsideInt(self.place)),
        }
    }

    // The word that begins here, and the place after it.
    pub(crate) fn word(&self) -> Result<(Word<'t>, usize), WordFault>
        ensures is { seen_at result ≡ word_at self.now.text.now self.now.place }
        ensures within { IfOk result (λ x. (self.now.place < x.1) × (x.1 ≤ length self.now.text.now)) }
    {
        let (text, place) = (self.text, self.place);
        match class_of(text[place]) {
            Class::Letter => {
                let end = self.run_end(Run::Name);
                Ok((Word::Name(&text[place..end]), end))
            }
            Class::Digit => self.number(),
            Class::Minus if byte_at(text, place + 1).is_ascii_digit() => self.number(),
            Class::Colon if byte_at(text, place + 1) == b'=' => Ok((Word::Assign, place + 2)),
            Class::Colon => Ok((Word::Colon, place + 1)),
            Class::Semicolon => Ok((Word::Semicolon, place + 1)),
            Class::Minus | Class::Other => Err(WordFault::Stray(place)),
        }
    }
}
