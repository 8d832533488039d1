// How a reader moves over its text.
ghost use Rattle.std.specs.Prelude.{◌≡◌, ◌<◌, ◌≤◌, length, drop, IfOk, OnSome};
ghost use Rattle.words.specs.Laws.{Lawful, Only, KeepsLaws, KeepsThemAlone};
ghost use Rattle.words.specs.Words.{blanks, outside, next_at, answered, stands_at};

use super::Reader;
use crate::bytes::is_blank;
use crate::scan::{Start, closing};
use crate::word::{Word, WordFault};

// The next word of every text keeps the laws, and it alone.
fn keeps_laws()
    ensures laws { KeepsLaws }
    ensures only { KeepsThemAlone }
{}

impl<'t> Reader<'t> {
    // A reader at the beginning of a text.
    pub fn new(text: &'t [u8]) -> Reader<'t>
        ensures text { result.text.now ≡ text.now }
        ensures place { result.place ≡ 0 }
    {
        Reader { text, place: 0 }
    }

    // The next word and its place, or none at the end of the text.
    pub fn next_word(&mut self) -> Result<Option<(usize, Word<'t>)>, WordFault>
        ensures text { self.new.text.now ≡ self.old.text.now }
        ensures is { answered result self.new.place ≡ next_at self.old.text.now self.old.place }
        ensures place { self.new.place ≡ stands_at (next_at self.old.text.now self.old.place) (length self.old.text.now) self.old.place }
        ensures on { (self.old.place ≤ self.new.place) × IfOk result (λ o. OnSome o (self.old.place < self.new.place)) }
        ensures laws { Lawful self.old.text.now self.old.place (answered result self.new.place) }
        ensures only { Only self.old.text.now self.old.place (answered result self.new.place) }
    {
        keeps_laws();
        let start = self.blanks_end()?;
        if start < self.text.len() {
            let begin = Start {
                text: self.text,
                place: start,
            };
            let (word, end) = begin.word()?;
            self.place = end;
            Ok(Some((start, word)))
        } else {
            self.place = start;
            Ok(None)
        }
    }

    // The place where the blanks end.
    fn blanks_end(&self) -> Result<usize, WordFault>
        ensures is { result ≡ blanks outside self.now.place (drop self.now.place self.now.text.now) }
        ensures within { IfOk result (λ e. (self.now.place ≤ e) × (e ≤ length self.now.text.now)) }
    {
        let text = self.text;
        let mut place = self.place;
        loop {
            match &text[place..] {
                [first, ..] if is_blank(*first) => place += 1,
                [b'(', b'*', inner @ ..] => {
                    let length = closing(inner).ok_or(WordFault::Unclosed(place))?;
                    place += length + 4;
                }
                _ => return Ok(place),
            }
        }
    }

    // How long the text is.
    pub fn end(&self) -> usize
        ensures { result ≡ length self.now.text.now }
    {
        self.text.len()
    }
}
