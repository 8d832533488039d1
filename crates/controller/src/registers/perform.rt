// One statement carried out on values.
ghost use Rattle.std.specs.Prelude.{◌≡◌};
ghost use Rattle.meaning.specs.Meaning.{operand as operand_for, stored, jumps as jumps_on, performed, perform as meant};
ghost use Rattle.controller.specs.Registers.{held, Performed};

use super::Registers;
use super::access::{change, read};
use cells::value::Value;
use meaning::accepts::accepts;
use meaning::compute::{Cause, compute, negate, truth};
use meaning::edge::Edge;
use meaning::source::{Source, operand_source};
use syntax::operator::{Jump, Store};
use syntax::record::{Operation, Variable};

// Whether a jump is taken.
fn jumps(jump: Jump, cr: Value) -> bool
    ensures { result ≡ jumps_on jump cr }
{
    match jump {
        Jump::Jmp => true,
        Jump::Jmpc => truth(cr),
        Jump::Jmpcn => !truth(cr),
    }
}

impl Registers {
    // The operand of an operation; unset where it has none.
    fn operand(&self, variables: &[Variable], operation: Operation) -> Value
        ensures { result ≡ operand_for variables.now (held self.now).values operation }
    {
        match operand_source(variables, operation) {
            Source::Value(value) => value,
            Source::Variable(index) => read(&self.slots, index),
        }
    }

    // ST writes the current result, STN its opposite; S and R write TRUE or FALSE, only while it is TRUE.
    fn change(&mut self, store: Store, index: usize)
        ensures { held self.new ≡ record { cr = (held self.old).cr; values = stored store index (held self.old) } }
    {
        change(&mut self.slots, index, store, self.cr);
    }

    // An operation on values that it accepts.
    fn carry_out(&mut self, operation: Operation, operand: Value) -> Result<Edge, Cause>
        ensures { Performed (performed operation operand (held self.old)) (held self.old) (held self.new) result }
    {
        let cr = self.cr;
        match operation {
            Operation::Return => {
                self.cr = Value::Unset;
                Ok(Edge::Jump)
            }
            Operation::Not => {
                self.cr = negate(cr);
                Ok(Edge::Fall)
            }
            Operation::Label(_) => Ok(Edge::Fall),
            Operation::Apply(operator, _) => {
                self.cr = compute(operator, cr, operand)?;
                Ok(Edge::Fall)
            }
            Operation::Store(store, index) => {
                self.change(store, index);
                Ok(Edge::Fall)
            }
            Operation::Jump(jump, _) => {
                if jumps(jump, cr) {
                    Ok(Edge::Jump)
                } else {
                    Ok(Edge::Fall)
                }
            }
        }
    }

    // One statement: the way on from it, or why it stops; then nothing changes.
    pub(crate) fn perform(
        &mut self,
        variables: &[Variable],
        operation: Operation,
    ) -> Result<Edge, Cause>
        ensures { Performed (meant variables.now operation (held self.old)) (held self.old) (held self.new) result }
    {
        let operand = self.operand(variables, operation);
        if accepts(operation, self.cr.sort(), operand.sort()) {
            self.carry_out(operation, operand)
        } else {
            Err(Cause::Kind)
        }
    }
}
