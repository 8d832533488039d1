// The calls, alone and many at a time, and the line that tells what they came to.
ghost use Rattle.std.specs.Prelude.{◌≡◌};
ghost use Rattle.controller.specs.Machine.{machine, code_of};
ghost use Rattle.script.specs.Lines.{stands_as, line_for as line_for_answer};
ghost use Rattle.script.specs.Calls.{start_told, step_told, steps_told, scan_told, restart_told, ToldAs};

use crate::line::{Line, line_for, standing};
use cells::cell::Cell;
use controller::{CallFault, Controller, Phase};
use domain::Domain;

// The most steps of one scan.
const MOST_STEPS: u32 = 65_535;

pub(crate) fn start(controller: &mut Controller, numbers: &[i32]) -> Line
    ensures { ToldAs (start_told (code_of controller.old) numbers.now (machine controller.old)) controller.old controller.new result }
{
    line_for(controller.start(numbers), Line::Started)
}

pub(crate) fn step<D: Domain>(controller: &mut Controller, cells: &[Cell<D>]) -> Line
    ensures { ToldAs (step_told D.ops (code_of controller.old) cells.now (machine controller.old)) controller.old controller.new result }
{
    let answer = controller.step(cells);
    line_for(answer, standing(controller))
}

pub(crate) fn restart(controller: &mut Controller) -> Line
    ensures { ToldAs (restart_told (code_of controller.old) (machine controller.old)) controller.old controller.new result }
{
    controller.restart();
    Line::Restarted
}

// Takes so many steps, or fewer where the controller runs no more or a step is refused.
fn take_steps<D: Domain>(
    controller: &mut Controller,
    cells: &[Cell<D>],
    most: u32,
) -> Result<(), CallFault>
    ensures { ToldAs (steps_told D.ops (code_of controller.old) cells.now most (machine controller.old)) controller.old controller.new (line_for_answer result (stands_as (machine controller.new))) }
{
    for _step in 0..most {
        match controller.phase() {
            Phase::Running => controller.step(cells)?,
            Phase::Waiting | Phase::Stopped(_) => break,
        }
    }
    Ok(())
}

fn start_and_step<D: Domain>(
    controller: &mut Controller,
    cells: &[Cell<D>],
    numbers: &[i32],
) -> Result<(), CallFault>
    ensures { ToldAs (scan_told D.ops (code_of controller.old) cells.now numbers.now (machine controller.old)) controller.old controller.new (line_for_answer result (stands_as (machine controller.new))) }
{
    controller.start(numbers)?;
    take_steps(controller, cells, MOST_STEPS)
}

// A start, then steps until the controller waits or stops; a refused start is all.
pub(crate) fn scan<D: Domain>(
    controller: &mut Controller,
    cells: &[Cell<D>],
    numbers: &[i32],
) -> Line
    ensures { ToldAs (scan_told D.ops (code_of controller.old) cells.now numbers.now (machine controller.old)) controller.old controller.new result }
{
    let answer = start_and_step(controller, cells, numbers);
    line_for(answer, standing(controller))
}
