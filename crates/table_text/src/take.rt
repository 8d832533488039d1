// What each word of a table does.
ghost use Rattle.std.specs.Prelude.{◌≡◌, length, slice_set};
ghost use Rattle.notation.specs.Numerals.{numeral};
ghost use Rattle.table_text.specs.Table.{is_row, row_taken, mark_taken, next_index, with_left, cell_taken, word_taken, ended, TookAs};

use crate::fault::TableFault;
use crate::gaps::Word;
use crate::progress::{Progress, Stage};
use cells::cell::Cell;
use notation::Notation;
use notation::cell::read_cell;
use notation::numerals::number_in;

// Whether a word is the number of a line.
fn is_row(row: usize, word: &[u8]) -> bool
    ensures { result ≡ is_row row (numeral word.now) }
{
    number_in(word).is_some_and(|number| number >= 0 && number as usize == row)
}

// Puts a cell at its place, and answers the next place; one beyond the caller's cells is dropped.
fn put<D: Notation>(index: usize, cell: Cell<D>, cells: &mut [Cell<D>]) -> usize
    ensures is { result ≡ next_index index (length cells.old) }
    ensures cells { cells.new ≡ slice_set cells.old index cell }
{
    // by index: after a loan by get_mut a proof knows the length of the cells, and none of them
    if index < cells.len() {
        cells[index] = cell;
        index + 1
    } else {
        index
    }
}

// Where a line stands that still wants so many cells.
fn with_left(left: usize) -> Stage
    ensures { result ≡ with_left left }
{
    if left > 0 {
        Stage::Cell(left)
    } else {
        Stage::Number
    }
}

impl Progress {
    // The word that begins a line.
    fn take_row(self, word: Word) -> Result<Progress, TableFault>
        ensures { result ≡ row_taken self word.entry.place word.entry.bytes.now }
    {
        if self.row < self.size.rows && is_row(self.row, word.bytes) {
            Ok(Progress {
                stage: Stage::Mark,
                row: self.row + 1,
                ..self
            })
        } else {
            Err(TableFault::Misfit(word.place))
        }
    }

    // Any word behind the number of a line: its cells are to come.
    fn take_mark(self) -> Progress
        ensures { result ≡ mark_taken self }
    {
        Progress {
            stage: with_left(self.size.width),
            ..self
        }
    }

    // One cell, where the line still wants so many.
    fn take_cell<D: Notation>(
        self,
        left: usize,
        word: Word,
        cells: &mut [Cell<D>],
    ) -> Result<Progress, TableFault>
        ensures { TookAs (cell_taken D.Domain.ops D.Notation.read_as self left word.entry.place word.entry.bytes.now cells.old) result cells.new }
    {
        let cell = read_cell(word.bytes).ok_or(TableFault::Misfit(word.place))?;
        Ok(Progress {
            stage: with_left(left.saturating_sub(1)),
            index: put(self.index, cell, cells),
            ..self
        })
    }

    // One word more.
    pub(crate) fn take_word<D: Notation>(
        self,
        word: Word,
        cells: &mut [Cell<D>],
    ) -> Result<Progress, TableFault>
        ensures { TookAs (word_taken D.Domain.ops D.Notation.read_as self word.entry.new_line word.entry.place word.entry.bytes.now cells.old) result cells.new }
    {
        match (self.stage, word.new_line) {
            (Stage::Begin, _) if word.bytes == b"settled".as_slice() => Ok(Progress {
                stage: Stage::Heading,
                ..self
            }),
            (Stage::Begin, _) | (Stage::Heading | Stage::Number, true) => self.take_row(word),
            (Stage::Heading, false) => Ok(self),
            (Stage::Mark, false) => Ok(self.take_mark()),
            (Stage::Cell(left), false) => self.take_cell(left, word, cells),
            _ => Err(TableFault::Misfit(word.place)),
        }
    }

    // The text may end only behind its last line.
    pub(crate) fn end(self, place: usize) -> Result<(), TableFault>
        ensures { result ≡ ended self place }
    {
        match self.stage {
            Stage::Begin | Stage::Heading | Stage::Number if self.row == self.size.rows => Ok(()),
            _ => Err(TableFault::Misfit(place)),
        }
    }
}
