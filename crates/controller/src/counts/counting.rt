// Counting steps.
ghost use Rattle.std.specs.Prelude.{◌≡◌, ◌<◌, ◌≤◌, false, ◌==◌};
ghost use Rattle.controller.specs.Tallies.{tally, none, tallied};

use super::Counts;

impl Counts {
    pub fn new() -> Counts
        ensures { tally result ≡ none }
    {
        Counts {
            steps: 0,
            outside: 0,
            unmarked: 0,
        }
    }

    // The steps begun.
    pub fn steps(&self) -> u32
        ensures { result ≡ (tally self.now).steps }
    {
        self.steps
    }

    // The steps begun with values outside their row.
    pub fn outside(&self) -> u32
        ensures is { result ≡ (tally self.now).outside }
        ensures few { result ≤ (tally self.now).steps }
    {
        self.outside
    }

    // The stops for a cause that their row's marks lack.
    pub fn unmarked(&self) -> u32
        ensures is { result ≡ (tally self.now).unmarked }
        ensures few { result ≤ (tally self.now).steps }
    {
        self.unmarked
    }

    // Whether no step more can be counted.
    pub fn is_full(&self) -> bool
        ensures is { result ≡ ((tally self.now).steps == 4294967295) }
        ensures room { result ≡ false → self.now.steps < 4294967295 }
    {
        self.steps == 4_294_967_295
    }

    // One step more, outside its row or not, stopped for an unmarked cause or not; none where the counts are full.
    pub fn count(&mut self, outside: bool, unmarked: bool)
        ensures { tally self.new ≡ tallied outside unmarked (tally self.old) }
    {
        if self.is_full() {
            return;
        }
        self.steps += 1;
        if outside {
            self.outside += 1;
        }
        if unmarked {
            self.unmarked += 1;
        }
    }
}
