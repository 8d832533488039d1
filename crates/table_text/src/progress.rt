// How far the text of a table has come.

#[derive(Clone, Copy)]
pub enum Stage {
    // before the first word
    Begin,
    // behind `settled`, in its line
    Heading,
    // where the number of a line may come
    Number,
    // behind the number of a line
    Mark,
    // where a cell has to come, as the first of so many that the line still wants
    Cell(usize),
}

// How many lines a table has, and how many cells each of them.
#[derive(Clone, Copy)]
pub struct Size {
    pub rows: usize,
    pub width: usize,
}

// The size of the table, how many lines have begun, and how many cells have been read in all.
#[derive(Clone, Copy)]
pub struct Progress {
    pub size: Size,
    pub stage: Stage,
    pub row: usize,
    pub index: usize,
}
