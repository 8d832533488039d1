// What carrying and marks promise of running, for every kind of sets that keeps the laws.
ghost use Rattle.transfer.specs.Soundness.{Simulates, SimulatesReturn, StartsCovered, Foresees};

use domain::Domain;

// Simulation, and that stops are foreseen: a call that does nothing, and says what holds of all programs, rows and states.
pub fn carrying_is_sound<D: Domain>()
    ensures simulates { Simulates D.Domain.ops }
    ensures simulates_return { SimulatesReturn D.Domain.ops }
    ensures starts_covered { StartsCovered D.Domain.ops }
    ensures foresees { Foresees D.Domain.ops }
{}
