// A sheet: a table that passed the check. Only the check makes one, and writing it out uses it up.
use crate::judged::Judged;

pub mod checking;
pub mod writing;

#[derive(Drop)]
pub struct Sheet<'c, 'p, D> {
    table: Judged<'c, 'p, D>,
}
