// The promise of a table that passes: calls that do nothing, and say what holds of a program.
ghost use Rattle.program.specs.Model.{code};
ghost use Rattle.soundness.specs.Reachable.{ReachableCovered};
ghost use Rattle.soundness.specs.Promise.{StepsStayCovered, StopsAreMarked, RunsReach, CallsAreRuns};

use domain::Domain;
use program::Program;

// Beside any table that passes, over any kind of sets that keeps the laws, and after any calls.
pub fn beside_any_passing_table<D: Domain>(program: &Program)
    ensures steps_stay_covered { StepsStayCovered D.Domain.ops (code program.now) }
    ensures stops_are_marked { StopsAreMarked D.Domain.ops (code program.now) }
    ensures reachable_covered { ReachableCovered D.Domain.ops (code program.now) }
    ensures runs_reach { RunsReach D.Domain.ops (code program.now) }
    ensures calls_are_runs { CallsAreRuns D.Domain.ops (code program.now) }
{
    // called for what it says of the program: that it is formed
    let _ = program.variables();
}
