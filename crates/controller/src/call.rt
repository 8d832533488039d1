// What is asked of a controller.
use transfer::marks::Marks;

// What a step sees of its table: how many cells it has, and in the row before its statement whether that covers the values, and the marks.
#[derive(Clone, Copy)]
pub struct Sight {
    pub size: usize,
    pub covered: bool,
    pub marks: Marks,
}

// A call; the list that a reading writes comes beside it.
#[derive(Clone, Copy)]
pub enum Call<'a> {
    Start(&'a [i32]),
    Step(Sight),
    Restart,
    Read,
}
