// How many steps a controller has begun, and how many of them its tables did not foresee.
ghost use Rattle.std.specs.Prelude.{◌≤◌};

pub mod counting;
#[cfg(test)]
pub mod tests;

#[derive(Clone, Copy)]
pub struct Counts {
    steps: u32,
    outside: u32,
    unmarked: u32,
    ghost outside_few: { outside ≤ steps },
    ghost unmarked_few: { unmarked ≤ steps },
}
