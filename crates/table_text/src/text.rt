// A whole text of a table.
ghost use Rattle.std.specs.Prelude.{◌≡◌};
ghost use Rattle.table_text.specs.Table.{all_taken, table_read, ReadAs};

use crate::fault::TableFault;
use crate::gaps::{Word, gap_from, word_end};
use crate::progress::{Progress, Size, Stage};
use cells::cell::Cell;
use notation::Notation;

const MOST_BYTES: usize = 1_048_576;

// Takes the words of a text in their order.
fn take_words<D: Notation>(text: &[u8], size: Size, cells: &mut [Cell<D>]) -> Result<(), TableFault>
    ensures { ReadAs (all_taken D.Domain.ops D.Notation.read_as text.now size cells.old) result cells.new }
{
    let mut progress = Progress {
        size,
        stage: Stage::Begin,
        row: 0,
        index: 0,
    };
    let mut gap = gap_from(text, 0);
    // a cursor: each turn passes a word and a gap of any length
    while gap.end < text.len() {
        let after = word_end(text, gap.end);
        let word = Word {
            place: gap.end,
            new_line: gap.line,
            bytes: &text[gap.end..after],
        };
        progress = progress.take_word(word, cells)?;
        gap = gap_from(text, after);
    }
    progress.end(text.len())
}

// Reads the table of a program of so many statements, with so many cells a row, into the caller's cells.
pub fn read_table<D: Notation>(
    text: &[u8],
    statements: usize,
    width: usize,
    cells: &mut [Cell<D>],
) -> Result<(), TableFault>
    ensures { ReadAs (table_read D.Domain.ops D.Notation.read_as text.now statements width cells.old) result cells.new }
{
    if text.len() > MOST_BYTES {
        return Err(TableFault::TooLong);
    }
    let size = Size {
        rows: statements,
        width,
    };
    take_words(text, size, cells)
}
