// A table in the caller's cells, row after row.
ghost use Rattle.std.specs.Prelude.{◌≡◌, length};
ghost use Rattle.transfer.specs.Rows.{row_at};
ghost use Rattle.table.specs.Growing.{with_row, with_cell, cleared};

use crate::{growing, rows};
use cells::cell::Cell;
use domain::Domain;

#[derive(Drop)]
pub struct Table<'a, D> {
    cells: &'a mut [Cell<D>],
    width: usize,
}

impl<'a, D: Domain> Table<'a, D> {
    // A table with rows of so many cells.
    pub fn new(cells: &'a mut [Cell<D>], width: usize) -> Table<'a, D>
        ensures cells { result.cells.now ≡ cells.old }
        ensures width { result.width ≡ width }
        ensures lender { result.cells.ghost_name ≡ cells.entry.ghost_name }
    {
        Table { cells, width }
    }

    // All cells, for reading.
    pub fn cells(&self) -> &[Cell<D>]
        ensures { result.now ≡ self.now.cells.now }
    {
        self.cells
    }

    // The row before a statement, as far as the cells reach.
    pub fn row(&self, index: usize) -> &[Cell<D>]
        ensures { result.now ≡ row_at self.now.width self.now.cells.now index }
    {
        rows::row_at(self.cells, self.width, index)
    }

    // Makes every cell allow nothing.
    pub fn clear(&mut self)
        ensures cells { self.new.cells.now ≡ cleared D.ops (length self.old.cells.now) }
        ensures width { self.new.width ≡ self.old.width }
        ensures lender { self.new.cells.ghost_name ≡ self.old.cells.ghost_name }
    {
        growing::clear(self.cells)
    }

    // Brings a row to the row of a statement, and says whether a cell there did not take in what came.
    pub fn take_in(&mut self, index: usize, row: &[Cell<D>], widening: bool) -> bool
        ensures cells { self.new.cells.now ≡ (with_row D.ops widening self.old.width self.old.cells.now index row.now).cells }
        ensures changed { result ≡ (with_row D.ops widening self.old.width self.old.cells.now index row.now).changed }
        ensures width { self.new.width ≡ self.old.width }
        ensures lender { self.new.cells.ghost_name ≡ self.old.cells.ghost_name }
    {
        let width = self.width;
        growing::take_in_row(self.cells, width, index, row, widening)
    }

    // Puts a cell at a column of a row, where there is one.
    pub fn put(&mut self, index: usize, column: usize, cell: Cell<D>)
        ensures cells { self.new.cells.now ≡ with_cell self.old.width self.old.cells.now index column cell }
        ensures width { self.new.width ≡ self.old.width }
        ensures lender { self.new.cells.ghost_name ≡ self.old.cells.ghost_name }
    {
        let width = self.width;
        growing::put(self.cells, width, index, column, cell)
    }
}
