// The promise of a table that passes, at intervals and at lists: one function made for each, so that the promise can be read of sets that are named.
ghost use Rattle.program.specs.Model.{code};
ghost use Rattle.interval.specs.Interval.{interval_ops};
ghost use Rattle.list.specs.NumberList.{list_ops};
ghost use Rattle.soundness.specs.Reachable.{ReachableCovered};
ghost use Rattle.soundness.specs.Promise.{StepsStayCovered, StopsAreMarked};

use interval::Interval;
use list::NumberList;
use program::Program;
use soundness::promise::beside_any_passing_table;

// Beside any table of intervals that passes.
pub fn beside_intervals(program: &Program)
    ensures steps_stay_covered { StepsStayCovered interval_ops (code program.now) }
    ensures stops_are_marked { StopsAreMarked interval_ops (code program.now) }
    ensures reachable_covered { ReachableCovered interval_ops (code program.now) }
{
    beside_any_passing_table::<Interval>(program)
}

// Beside any table of lists that passes.
pub fn beside_lists(program: &Program)
    ensures steps_stay_covered { StepsStayCovered list_ops (code program.now) }
    ensures stops_are_marked { StopsAreMarked list_ops (code program.now) }
    ensures reachable_covered { ReachableCovered list_ops (code program.now) }
{
    beside_any_passing_table::<NumberList>(program)
}
