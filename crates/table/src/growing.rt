// Cells that take in others, one at a time and by the row.
ghost use Rattle.std.specs.Prelude.{◌≡◌, ◌+◌, ◌*◌, false, not, length, slice_index_or, slice_set};
ghost use Rattle.cells.specs.Cells.{nothing, within as cell_within};
ghost use Rattle.table.specs.Growing.{larger, taken_in, with_row, with_cell, cleared};

use cells::cell::Cell;
use domain::Domain;

// The join of two cells, or its widening.
pub fn grow<D: Domain>(own: Cell<D>, given: Cell<D>, widening: bool) -> Cell<D>
    ensures { result ≡ larger D.ops widening own given }
{
    if widening {
        own.widen(given)
    } else {
        own.join(given)
    }
}

// Brings a cell to its target, and says whether the target did not take it in as it was.
#[inline]
pub fn take_in<D: Domain>(target: &mut Cell<D>, given: Cell<D>, widening: bool) -> bool
    ensures cell { target.new ≡ taken_in D.ops widening target.old given }
    ensures changed { result ≡ not (cell_within D.ops given target.old) }
{
    if given.within(*target) {
        return false;
    }
    *target = grow(*target, given, widening);
    true
}

// Brings a cell to a place; one beyond the end takes in what a cell that allows nothing does, and is not written.
pub fn take_in_at<D: Domain>(
    cells: &mut [Cell<D>],
    place: usize,
    given: Cell<D>,
    widening: bool,
) -> bool
    ensures cells { cells.new ≡ slice_set cells.old place (taken_in D.ops widening (slice_index_or cells.old place (nothing D.ops)) given) }
    ensures changed { result ≡ not (cell_within D.ops given (slice_index_or cells.old place (nothing D.ops))) }
{
    // By an index: of a cell that `get_mut` lends, no proof knows what it holds afterwards.
    if place < cells.len() {
        take_in(&mut cells[place], given, widening)
    } else {
        !given.within(Cell::nothing())
    }
}

// Brings a row to the row of a statement, and says whether a cell there did not take in what came.
pub fn take_in_row<D: Domain>(
    cells: &mut [Cell<D>],
    width: usize,
    index: usize,
    row: &[Cell<D>],
    widening: bool,
) -> bool
    ensures cells { cells.new ≡ (with_row D.ops widening width cells.old index row.now).cells }
    ensures changed { result ≡ (with_row D.ops widening width cells.old index row.now).changed }
{
    let start = index.saturating_mul(width);
    let brought = &row[..width.min(row.len())];
    let mut changed = false;
    for (i, cell) in brought.iter().enumerate() {
        changed |= take_in_at(cells, start.saturating_add(i), *cell, widening);
    }
    changed
}

// Puts a cell at a column of a row, where there is one.
pub fn put<D: Domain>(
    cells: &mut [Cell<D>],
    width: usize,
    index: usize,
    column: usize,
    cell: Cell<D>,
)
    ensures { cells.new ≡ with_cell width cells.old index column cell }
{
    let place = index.saturating_mul(width).saturating_add(column);
    // By an index, for the same reason.
    if column < width && place < cells.len() {
        cells[place] = cell;
    }
}

// Makes every cell allow nothing.
pub fn clear<D: Domain>(cells: &mut [Cell<D>])
    ensures { cells.new ≡ cleared D.ops (length cells.old) }
{
    // In a loop: `fill` asks that a copy by `clone` cannot fail, which no kind of sets promises.
    let nothing = Cell::nothing();
    for cell in cells.iter_mut() {
        *cell = nothing;
    }
}
